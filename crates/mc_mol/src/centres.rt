ghost use Rattle.std.specs.Prelude.{◌≡◌, map};
ghost use Rattle.mc_mol.specs.ShortSlots.{slot_of, HasSmallNumber};

use crate::Slot;
use crate::mol::nones;
use mc_base::AtomId;
use std::alloc::{AllocError, Global};
use std::marker::Model;

/// A place of a centre as it is kept, in half the room of a `Slot`: atoms have numbers below 999.
#[derive(Clone, Copy)]
enum ShortSlot {
    At(u16),
    Rest,
}

/// A place as it is kept.
fn short_of(slot: Slot) -> ShortSlot
    requires { HasSmallNumber slot }
    ensures { slot_of result ≡ slot }
{
    match slot {
        Slot::At(atom) => ShortSlot::At(atom.0 as u16),
        Slot::Rest => ShortSlot::Rest,
    }
}

/// A kept place.
fn slot_of(short: ShortSlot) -> Slot
    ensures { result ≡ slot_of short }
{
    match short {
        ShortSlot::At(number) => Slot::At(AtomId(number as u32)),
        ShortSlot::Rest => Slot::Rest,
    }
}

/// A kept list.
fn slots_of(list: &[ShortSlot; 4]) -> [Slot; 4]
    ensures { result ≡ map slot_of list.now }
{
    [
        slot_of(list[0]),
        slot_of(list[1]),
        slot_of(list[2]),
        slot_of(list[3]),
    ]
}

/// For each atom its list of places, or none.
#[derive(Drop)]
pub struct Centres {
    lists: Vec<Option<[ShortSlot; 4]>>,
}

impl Model for Centres {
    ghost use Rattle.std.specs.Prelude.{List, Option, map};
    ghost use Rattle.mc_mol.specs.declared.parts.Slot.{Slot as Place};
    ghost use Rattle.mc_mol.specs.ShortSlots.{slots_of};

    ghost Value = { List (Option (List Place)) };

    ghost view = { λ c. map slots_of c.lists.items };
}

impl Centres {
    ghost use Rattle.std.specs.Prelude.{◌≡◌, ◌<◌, ◌++◌, [], ◌∷◌, All, length, replicate, IfOk, OnOk, OnErr, Some, None, slice_get, slice_set};

    pub fn new(alloc: Global) -> Centres
        ensures { result ≡ [] }
    {
        Centres {
            lists: Vec::new(alloc),
        }
    }

    /// None for so many atoms.
    #[tactic(auto, using(crate::proofs::ShortLists::slots_nones))]
    pub fn none(alloc: Global, atoms: usize) -> Result<Centres, AllocError>
        ensures { IfOk result (λ centres. centres ≡ replicate atoms None) }
    {
        Ok(Centres {
            lists: nones(alloc, atoms)?,
        })
    }

    /// None for one more atom.
    pub fn push_none(&mut self) -> Result<(), AllocError>
        ensures ok { OnOk result (self.new ≡ self.old ++ None ∷ []) }
        ensures err { OnErr result (self.new ≡ self.old) }
    {
        self.lists.push(None)?;
        Ok(())
    }

    pub fn get(&self, atom: usize) -> Option<[Slot; 4]>
        requires { atom < length self.now }
        ensures { slice_get self.now atom ≡ Some result }
    {
        match self.lists[atom] {
            Some(list) => Some(slots_of(&list)),
            None => None,
        }
    }

    pub fn set(&mut self, atom: usize, places: [Slot; 4])
        requires atom { atom < length self.old }
        requires four { length places ≡ 4 }
        requires small { All HasSmallNumber places }
        ensures { self.new ≡ slice_set self.old atom (Some places) }
    {
        self.lists[atom] = Some([
            short_of(places[0]),
            short_of(places[1]),
            short_of(places[2]),
            short_of(places[3]),
        ]);
    }
}
