ghost use Rattle.std.specs.Prelude.{◌≡◌, ◌≤◌, ◌++◌, length, ℕ, List, All, IfOk, OnOk};
ghost use Rattle.mc_digits.specs.Fields.{is_blank};
ghost use Rattle.ct_v3000.specs.Words.{ended_spans, parts, begun_by, behind, is_closed, found_words, words_of, IsPart};

use mc_base::NoMemory;

/// Where a reader of words stands in a text.
#[derive(Clone, Copy, Debug, PartialEq, Eq)]
pub enum Within {
    Gap,
    Word,
    /// behind a `(`
    Bracket,
    /// behind a quotation mark
    Quote,
}

/// Where a word stands in its text.
#[derive(Clone, Copy, Debug, PartialEq, Eq)]
pub struct WordSpan {
    pub from: usize,
    pub to: usize,
}

fn is_blank(byte: u8) -> bool
    ensures { result ≡ is_blank byte }
{
    byte == b' ' || byte == b'\t'
}

impl Within {
    fn parts(self, byte: u8) -> bool
        ensures { result ≡ parts self byte }
    {
        match self {
            Within::Gap | Within::Word => is_blank(byte),
            Within::Bracket | Within::Quote => false,
        }
    }

    fn behind(self, byte: u8) -> Within
        ensures { result ≡ behind self byte }
    {
        match self {
            Within::Gap | Within::Word => begun_by(byte),
            Within::Bracket => {
                if byte == b')' {
                    Within::Word
                } else {
                    Within::Bracket
                }
            }
            Within::Quote => {
                if byte == b'"' {
                    Within::Word
                } else {
                    Within::Quote
                }
            }
        }
    }

    fn is_closed(self) -> bool
        ensures { result ≡ is_closed self }
    {
        match self {
            Within::Gap | Within::Word => true,
            Within::Bracket | Within::Quote => false,
        }
    }
}

fn begun_by(byte: u8) -> Within
    ensures { result ≡ begun_by byte }
{
    match byte {
        b'(' => Within::Bracket,
        b'"' => Within::Quote,
        _ => Within::Word,
    }
}

/// Adds the part of a text that ends as a word.
fn end_word(
    words: &mut Vec<WordSpan>,
    within: Within,
    from: usize,
    to: usize,
) -> Result<(), NoMemory>
    ensures items { OnOk result (words.new.items ≡ words.old.items ++ ended_spans within from to) }
    ensures within { OnOk result ((text : List ℕ) → from ≤ to → to ≤ length text → All (IsPart text) words.old.items → All (IsPart text) words.new.items) }
{
    if within == Within::Word {
        words.push(WordSpan { from, to })?;
    }
    Ok(())
}

/// Finds the words of a text. Answers whether each bracket and each quotation mark is closed.
#[tactic(auto, unfolding(crate::specs::Words::words_of))]
pub fn split(text: &[u8], words: &mut Vec<WordSpan>) -> Result<bool, NoMemory>
    ensures found { IfOk result (λ closed. found_words text.now closed words.new.items ≡ words_of text.now) }
    ensures within { OnOk result (All (IsPart text.now) words.new.items) }
{
    words.clear();
    let mut within = Within::Gap;
    let mut from = 0usize;
    let mut i = 0usize;
    while i < text.len() {
        let byte = text[i];
        if within.parts(byte) {
            end_word(words, within, from, i)?;
            within = Within::Gap;
            from = i + 1;
        } else {
            within = within.behind(byte);
        }
        i += 1;
    }
    if within.is_closed() {
        end_word(words, within, from, i)?;
    }
    Ok(within.is_closed())
}
