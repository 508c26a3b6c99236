ghost use Rattle.std.specs.Prelude.{◌≡◌};
ghost use Rattle.ct_sd.specs.Faults.{first_of, faults_at};
ghost use Rattle.ct_sd.specs.Bonds.{type_shows};

use crate::FirstFault;
use mc_base::Kind;

/// Notes what a type of a bond shows: 1 to 3 are orders, 4 to 8 are queries, and 9 and 10 have no order.
#[tactic(auto, using(crate::proofs::First::first_of_two))]
pub fn note_bond_type(bond_type: u32, place: u32, faults: &mut FirstFault)
    ensures { faults.new.fault ≡ first_of faults.old.fault (faults_at place (type_shows bond_type)) }
{
    faults.note_if(4 <= bond_type && bond_type <= 8, Kind::Query, place);
    faults.note_if(9 <= bond_type, Kind::BondType, place);
}
