ghost use Rattle.std.specs.Prelude.{◌≡◌, ◌≤◌, length, take, drop, map, All};
ghost use Rattle.ct_v3000.specs.Words.{part, IsPart, word, word_is, begins, is_line};

use crate::splitting::WordSpan;
use ct_sd::equals;
use std::marker::Model;

/// The words of a line, as parts of its text.
#[derive(Drop)]
pub struct Words<'a> {
    text: &'a [u8],
    spans: &'a [WordSpan],
}

impl<'a> Model for Words<'a> {
    ghost use Rattle.std.specs.Prelude.{List, ℕ, map, All};
    ghost use Rattle.ct_v3000.specs.Words.{part, IsPart};

    ghost Value = { List (List ℕ) };

    ghost view = { λ w. map (part w.text.now) w.spans.now };

    ghost invariant = { λ w. All (IsPart w.text.now) w.spans.now };
}

impl<'a> Words<'a> {
    pub fn new(text: &'a [u8], spans: &'a [WordSpan]) -> Words<'a>
        requires { All (IsPart text.now) spans.now }
        ensures { result ≡ map (part text.now) spans.now }
    {
        Words { text, spans }
    }

    /// The first n words.
    #[tactic(auto, using(crate::proofs::WordLists::front_within, crate::proofs::WordLists::front_words))]
    pub fn front(&self, n: usize) -> Words<'a>
        requires { n ≤ length self.now }
        ensures { result ≡ take n self.now }
    {
        Words {
            text: self.text,
            spans: &self.spans[..n],
        }
    }

    /// The words behind the first n.
    #[tactic(auto, using(crate::proofs::WordLists::rest_within, crate::proofs::WordLists::rest_words))]
    pub fn behind(&self, n: usize) -> Words<'a>
        ensures { result ≡ drop n self.now }
    {
        Words {
            text: self.text,
            spans: behind(self.spans, n),
        }
    }

    pub fn count(&self) -> usize
        ensures { result ≡ length self.now }
    {
        self.spans.len()
    }

    /// Word n, from 0; a word that isn't there is empty.
    pub fn word(&self, n: usize) -> &'a [u8]
        ensures { result.now ≡ word n self.now }
    {
        if n < self.spans.len() {
            part(self.text, self.spans[n])
        } else {
            &[]
        }
    }

    pub fn word_is(&self, n: usize, text: &[u8]) -> bool
        ensures { result ≡ word_is n text.now self.now }
    {
        equals(self.word(n), text)
    }

    /// Whether the line begins with these two words.
    pub fn begins(&self, first: &[u8], second: &[u8]) -> bool
        ensures { result ≡ begins first.now second.now self.now }
    {
        self.word_is(0, first) && self.word_is(1, second)
    }

    /// Whether the line is these two words.
    pub fn is_line(&self, first: &[u8], second: &[u8]) -> bool
        ensures { result ≡ is_line first.now second.now self.now }
    {
        self.count() == 2 && self.begins(first, second)
    }
}

fn behind(spans: &[WordSpan], n: usize) -> &[WordSpan]
    ensures { result.now ≡ drop n spans.now }
{
    if n < spans.len() { &spans[n..] } else { &[] }
}

fn part(text: &[u8], span: WordSpan) -> &[u8]
    requires { IsPart text.now span }
    ensures { result.now ≡ part text.now span }
{
    &text[span.from..span.to]
}
