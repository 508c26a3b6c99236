ghost use Rattle.std.specs.Prelude.{◌≡◌, []};

use crate::{AtomList, Kind, NoMemory};
use std::alloc::{AllocError, AllocFailed, Global};

/// Why a record is refused, and where: a kind and its place, which the kind says what it counts
/// (bytes, lines, atoms, bonds or a number of things), always from 1.
///
/// For `NoPlacement` the place is 0, `barrier` is a set of atoms in increasing order whose removal
/// leaves `odd` parts with an odd number of atoms; for every other kind it is empty and `odd` is 0.
#[derive(Drop)]
pub struct Refusal {
    pub kind: Kind,
    pub place: u32,
    pub barrier: AtomList,
    pub odd: u32,
}

impl Refusal {
    /// A refusal of a kind that has no barrier.
    pub fn at(alloc: Global, kind: Kind, place: u32) -> Refusal
        ensures { result ≡ record { kind = kind; place = place; barrier = []; odd = 0 } }
    {
        Refusal {
            kind,
            place,
            barrier: AtomList::new(alloc),
            odd: 0,
        }
    }
}

/// Why a reader gives no answer.
#[derive(Drop)]
pub enum Stop {
    Refused(Refusal),
    NoMemory,
}

impl From<NoMemory> for Stop {
    ghost use Rattle.std.specs.Prelude.{◌≡◌};
    ghost use Rattle.mc_base.specs.declared.refusal.Stop.TheVariants.{NoMemory};

    ghost from_gives = { λ _ stop. stop ≡ NoMemory };

    fn from(_: NoMemory) -> Stop {
        Stop::NoMemory
    }
}

impl From<AllocError> for Stop {
    ghost use Rattle.std.specs.Prelude.{◌≡◌};
    ghost use Rattle.mc_base.specs.declared.refusal.Stop.TheVariants.{NoMemory};

    ghost from_gives = { λ _ stop. stop ≡ NoMemory };

    fn from(_: AllocError) -> Stop {
        Stop::NoMemory
    }
}

impl<T: Drop> From<AllocFailed<T>> for Stop {
    ghost use Rattle.std.specs.Prelude.{◌≡◌};
    ghost use Rattle.mc_base.specs.declared.refusal.Stop.TheVariants.{NoMemory};

    ghost from_gives = { λ _ stop. stop ≡ NoMemory };

    fn from(_: AllocFailed<T>) -> Stop {
        Stop::NoMemory
    }
}
