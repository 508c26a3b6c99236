ghost use Rattle.std.specs.Prelude.{◌≡◌, ◌≤◌, ◌↔◌, IsTrue, Contains, List, length, map as map_list};
ghost use Rattle.mc_mol.specs.declared.parts.Slot.{Slot as Place};
ghost use Rattle.mc_mol.specs.Same.{SameCentre, carried};
ghost use Rattle.mc_mol.specs.WellFormed.{IsMolecule};
ghost use Rattle.mc_same.specs.Carried.{HasEntry, HaveEntries};
ghost use Rattle.mc_same.specs.Differences.{CentreAgrees, FirstFailure, Holds, InRange};

use mc_base::AtomId;
use mc_mol::{Mol, Slot, is_even_permutation};

fn carried(map: &[AtomId], slot: Slot) -> Slot
    requires { HasEntry (length map.now) slot }
    ensures { result ≡ carried map.now slot }
{
    match slot {
        Slot::At(atom) => Slot::At(map[atom.0 as usize]),
        Slot::Rest => Slot::Rest,
    }
}

fn all_carried(map: &[AtomId], places: [Slot; 4]) -> [Slot; 4]
    requires { (slot : Place) → Contains places slot → HasEntry (length map.now) slot }
    ensures { result ≡ map_list (carried map.now) places }
{
    [
        carried(map, places[0]),
        carried(map, places[1]),
        carried(map, places[2]),
        carried(map, places[3]),
    ]
}

/// Whether two atoms are both no centres, or centres whose lists say the same under a map.
fn same_centre(map: &[AtomId], ours: Option<[Slot; 4]>, theirs: Option<[Slot; 4]>) -> bool
    requires { HaveEntries (length map.now) ours }
    ensures { IsTrue result ↔ SameCentre map.now ours theirs }
{
    match ours {
        None => theirs.is_none(),
        Some(ours) => match theirs {
            Some(theirs) => is_even_permutation(&theirs, &all_carried(map, ours)),
            None => false,
        },
    }
}

/// The number of the first atom that isn't a centre as its atom of the input is.
pub fn first_other_centre(input: &Mol, output: &Mol, map: &[AtomId]) -> Option<u32>
    requires well_formed { IsMolecule output.now }
    requires same_length { length map.now ≡ length output.now.atoms }
    requires in_range { Holds (length map.now) (InRange input.now map.now) }
    ensures { FirstFailure (length map.now) (CentreAgrees input.now output.now map.now) result }
{
    for k in 0..output.atom_count() {
        if !same_centre(map, output.centre(AtomId(k)), input.centre(map[k as usize])) {
            return Some(k + 1);
        }
    }
    None
}
