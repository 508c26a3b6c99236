ghost use Rattle.std.specs.Prelude.{◌<◌, ◌^◌, ◌-◌, IfOk, IfErr, length};
ghost use Rattle.smi_graph.specs.Skeletons.{IsSkeleton, IsBroken};

use crate::Skeleton;
use crate::aromatic_bonds::aromatic_fault;
use crate::candidates::candidates;
use crate::limits::limit_fault;
use crate::reader::read_tokens;
use crate::tokens::byte_place;
use mc_base::{Kind, Refusal, Stop};
use std::alloc::Global;

/// The skeleton of a text, or the first kind that stands in it.
pub fn read_skeleton(alloc: Global, text: &[u8]) -> Result<Skeleton, Stop>
    requires { length text.now < 2 ^ 32 - 1 }
    ensures ok { IfOk result (IsSkeleton text.now) }
    ensures err { IfErr result (IsBroken text.now) }
{
    let reader = match read_tokens(alloc, text) {
        Ok(reader) => reader,
        Err(stop) => return Err(stop),
    };
    if !reader.all_built {
        return Err(Stop::Refused(Refusal::at(alloc, Kind::NotBuilt, 1)));
    }
    if let Some(fault) = reader.structure.fault(alloc, text)? {
        let place = byte_place(text, fault.place);
        return Err(Stop::Refused(Refusal::at(alloc, fault.kind, place)));
    }
    let atoms = reader.atoms.as_slice();
    let bonds = reader.structure.bonds();
    if let Some(fault) = aromatic_fault(atoms, bonds, reader.all_plain) {
        return Err(Stop::Refused(Refusal::at(alloc, fault.kind, fault.place)));
    }
    if let Some(fault) = limit_fault(alloc, atoms, bonds, reader.all_within_limits)? {
        return Err(Stop::Refused(Refusal::at(alloc, fault.kind, fault.place)));
    }
    let candidates = candidates(alloc, atoms, bonds, reader.all_plain)?;
    let (bonds, lists) = reader.structure.into_parts();
    let (neighbours, led) = lists.into_parts();
    Ok(Skeleton::new(reader.atoms, bonds, candidates, neighbours, led))
}
