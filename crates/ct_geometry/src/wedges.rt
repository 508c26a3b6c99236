ghost use Rattle.std.specs.Prelude.{◌≡◌, ◌++◌, [], ◌∷◌, length, OnOk, OnErr};

use crate::Wedge;
use mc_base::NoMemory;
use std::alloc::Global;
use std::marker::Model;

/// How each bond of a molecule is drawn, in the order of the bonds.
#[derive(Drop)]
pub struct Wedges {
    wedges: Vec<Wedge>,
}

impl Model for Wedges {
    ghost use Rattle.std.specs.Prelude.{List};
    ghost use Rattle.ct_geometry.specs.declared.wedge.Wedge.{Wedge as Mark};

    ghost Value = { List Mark };

    ghost view = { λ w. w.wedges.items };
}

impl Wedges {
    pub fn new(alloc: Global) -> Wedges
        ensures { result ≡ [] }
    {
        Wedges {
            wedges: Vec::new(alloc),
        }
    }

    pub fn from_vec(wedges: Vec<Wedge>) -> Wedges
        ensures { result ≡ wedges.items }
    {
        Wedges { wedges }
    }

    pub fn into_vec(self) -> Vec<Wedge>
        ensures { result.items ≡ self }
    {
        self.wedges
    }

    pub fn len(&self) -> usize
        ensures { result ≡ length self.now }
    {
        self.wedges.len()
    }

    pub fn push(&mut self, wedge: Wedge) -> Result<(), NoMemory>
        ensures ok { OnOk result (self.new ≡ self.old ++ wedge ∷ []) }
        ensures err { OnErr result (self.new ≡ self.old) }
    {
        self.wedges.push(wedge)?;
        Ok(())
    }

    pub fn as_slice(&self) -> &[Wedge]
        ensures { result.now ≡ self.now }
    {
        self.wedges.as_slice()
    }
}
