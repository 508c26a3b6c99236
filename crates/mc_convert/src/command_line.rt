ghost use Rattle.std.specs.Prelude.{◌≡◌, ◌↔◌, ◌∷◌, List, ℕ, None, Some, IfSome, IsTrue, map, string_bytes, length, codes, []};
ghost use Rattle.std.specs.List.{list_all};
ghost use Rattle.mc_convert.specs.Words.{IsCommand, IsNoCommand, IsCount, command_name, command_words, formats_of, is_file};

use crate::formats::{Formats, Origin, Target};

/// The commands of the table.
#[derive(Clone, Copy, Debug, PartialEq, Eq)]
pub enum Command {
    /// converts the records of one input
    Convert(Formats),
    /// checks what a conversion has made, against its originals and its report
    Check(Formats),
}

/// The formats that a command may have.
const SMILES: Formats = Formats {
    from: Origin::Smi,
    to: Target::Smi,
};

impl Command {
    /// The first word.
    fn name(self) -> &'static [u8]
        ensures { result.now ≡ command_name self }
    {
        match self {
            Command::Convert(_) => b"convert",
            Command::Check(_) => b"check",
        }
    }

    fn formats(self) -> Formats
        ensures { result ≡ formats_of self }
    {
        match self {
            Command::Convert(formats) => formats,
            Command::Check(formats) => formats,
        }
    }

    /// Whether the command may have so many files.
    fn takes(self, count: usize) -> bool
        ensures { IsTrue result ↔ IsCount self count }
    {
        match self {
            Command::Convert(_) => count <= 1,
            Command::Check(_) => count == 3,
        }
    }
}

pub(crate) fn is_word(word: &String, text: &[u8]) -> bool
    ensures { IsTrue result ↔ (string_bytes word.now ≡ text.now) }
{
    word.as_bytes() == text
}

/// Whether these are the words before the files.
fn are_words_of(command: Command, words: &[String]) -> bool
    ensures { IsTrue result ↔ (map string_bytes words.now ≡ command_words command) }
{
    let formats = command.formats();
    words.len() == 5
        && is_word(&words[0], command.name())
        && is_word(&words[1], b"--from")
        && is_word(&words[2], formats.from.name())
        && is_word(&words[3], b"--to")
        && is_word(&words[4], formats.to.name())
}

fn is_file(word: &String) -> bool
    ensures { result ≡ is_file (string_bytes word.now) }
{
    match word.as_bytes().first() {
        Some(first) => *first != b'-',
        None => false,
    }
}

fn are_files(words: &[String]) -> bool
    ensures { result ≡ list_all (λ word. is_file (string_bytes word)) words.now }
{
    words.iter().all(is_file)
}

/// The files of this command, where the words are its.
#[tactic(auto, using(crate::proofs::CommandLines::files_given, crate::proofs::CommandLines::is_long, crate::proofs::CommandLines::no_files))]
fn files_of(command: Command, words: &[String]) -> Option<&[String]>
    ensures some { IfSome result (λ files. IsCommand command (map string_bytes words.now) (map string_bytes files.now)) }
    ensures none { result ≡ None → (files : List (List ℕ)) → IsCommand command (map string_bytes words.now) files → ⊥ }
{
    if words.len() < 5 {
        return None;
    }
    let (front, files) = words.split_at(5);
    if are_words_of(command, front) && are_files(files) && command.takes(files.len()) {
        Some(files)
    } else {
        None
    }
}

/// The command whose words these are, and its files.
pub(crate) fn command_and_files(words: &[String]) -> Option<(Command, &[String])>
    ensures some { IfSome result (λ found. IsCommand found.0 (map string_bytes words.now) (map string_bytes found.1.now)) }
    ensures none { result ≡ None → IsNoCommand (map string_bytes words.now) }
{
    let convert = Command::Convert(SMILES);
    let check = Command::Check(SMILES);
    if let Some(files) = files_of(convert, words) {
        Some((convert, files))
    } else if let Some(files) = files_of(check, words) {
        Some((check, files))
    } else {
        None
    }
}

/// The command whose words these are.
#[tactic(auto, using(crate::proofs::CommandLines::one_command))]
pub fn command_of(words: &[String]) -> Option<Command>
    ensures some { IfSome result (λ command. (files : List (List ℕ)) × IsCommand command (map string_bytes words.now) files) }
    ensures only { (command : Command) (files : List (List ℕ)) → IsCommand command (map string_bytes words.now) files → result ≡ Some command }
{
    match command_and_files(words) {
        Some((command, _)) => Some(command),
        None => None,
    }
}
