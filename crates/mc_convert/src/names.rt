ghost use Rattle.std.specs.Prelude.{◌≡◌, ◌↔◌, ◌++◌, [], ◌∷◌, List, ℕ, length, map, string_bytes, Ok, IfOk, OnOk, OnErr};
ghost use Rattle.mc_convert.specs.declared.command_line.Command.{Command};
ghost use Rattle.mc_convert.specs.Words.{IsCommand, IsNoCommand, AreNames, NameNoFile};

use crate::command_line::command_and_files;
use mc_base::{NoMemory, Text};
use std::alloc::Global;
use std::marker::Model;

/// The names of the inputs.
#[derive(Drop)]
pub struct NameList {
    names: Vec<Text>,
}

impl Model for NameList {
    ghost use Rattle.std.specs.Prelude.{List, ℕ};

    ghost Value = { List (List ℕ) };

    ghost view = { λ t. t.names.items };
}

impl NameList {
    pub fn new(alloc: Global) -> NameList
        ensures { result ≡ [] }
    {
        NameList {
            names: Vec::new(alloc),
        }
    }

    pub fn len(&self) -> usize
        ensures { result ≡ length self.now }
    {
        self.names.len()
    }

    pub fn push(&mut self, name: Text) -> Result<(), NoMemory>
        ensures ok { OnOk result (self.new ≡ self.old ++ name ∷ []) }
        ensures err { OnErr result (self.new ≡ self.old) }
    {
        self.names.push(name)?;
        Ok(())
    }

    pub fn as_slice(&self) -> &[Text]
        ensures { result.now ≡ self.now }
    {
        self.names.as_slice()
    }
}

fn text_of(alloc: Global, word: &String) -> Result<Text, NoMemory>
    ensures { IfOk result (λ text. text ≡ string_bytes word.now) }
{
    Ok(Text::from_vec(word.as_bytes().to_vec(alloc)?))
}

fn names_of(alloc: Global, words: &[String]) -> Result<NameList, NoMemory>
    ensures { IfOk result (λ names. names ≡ map string_bytes words.now) }
{
    let mut names = NameList::new(alloc);
    for word in words {
        names.push(text_of(alloc, word)?)?;
    }
    Ok(names)
}

/// The files that the words name: those of the command whose words they are.
#[tactic(auto, using(crate::proofs::CommandLines::one_files))]
pub fn input_names(alloc: Global, words: &[String]) -> Result<NameList, NoMemory>
    ensures names { IfOk result (AreNames (map string_bytes words.now)) }

    // Where the words are a command's, there are no other names; and there are none exactly where the words name no file.
    ensures files { IfOk result (λ names. (command : Command) (files : List (List ℕ)) → IsCommand command (map string_bytes words.now) files → names ≡ files) }
    ensures no_command { IsNoCommand (map string_bytes words.now) → result ≡ Ok [] }
    ensures empty { IfOk result (λ names. (names ≡ []) ↔ NameNoFile (map string_bytes words.now)) }
{
    match command_and_files(words) {
        Some((_, files)) => names_of(alloc, files),
        None => Ok(NameList::new(alloc)),
    }
}
