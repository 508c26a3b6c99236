ghost use Rattle.std.specs.Prelude.{◌≡◌, ◌++◌, [], ◌∷◌, length, OnOk, OnErr};

use mc_base::NoMemory;
use std::alloc::Global;
use std::marker::Model;

/// For each bond of a molecule whether its second atom is above its first; none where it isn't marked.
#[derive(Drop)]
pub struct Marks {
    marks: Vec<Option<bool>>,
}

impl Model for Marks {
    ghost use Rattle.std.specs.Prelude.{List, Option, Bool};

    ghost Value = { List (Option Bool) };

    ghost view = { λ m. m.marks.items };
}

impl Marks {
    pub fn new(alloc: Global) -> Marks
        ensures { result ≡ [] }
    {
        Marks {
            marks: Vec::new(alloc),
        }
    }

    pub fn from_vec(marks: Vec<Option<bool>>) -> Marks
        ensures { result ≡ marks.items }
    {
        Marks { marks }
    }

    pub fn into_vec(self) -> Vec<Option<bool>>
        ensures { result.items ≡ self }
    {
        self.marks
    }

    pub fn len(&self) -> usize
        ensures { result ≡ length self.now }
    {
        self.marks.len()
    }

    pub fn push(&mut self, mark: Option<bool>) -> Result<(), NoMemory>
        ensures ok { OnOk result (self.new ≡ self.old ++ mark ∷ []) }
        ensures err { OnErr result (self.new ≡ self.old) }
    {
        self.marks.push(mark)?;
        Ok(())
    }

    pub fn as_slice(&self) -> &[Option<bool>]
        ensures { result.now ≡ self.now }
    {
        self.marks.as_slice()
    }
}
