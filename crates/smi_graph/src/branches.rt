ghost use Rattle.std.specs.Prelude.{◌≡◌};
ghost use Rattle.smi_graph.specs.Branches.{is_dot, unless_dot};

use crate::Role;
use smallvec::SmallVec;
use std::alloc::{AllocError, Global};

fn is_dot(latest: Option<Role>) -> bool
    ensures { result ≡ is_dot latest }
{
    match latest {
        Some(Role::Dot) => true,
        None
        | Some(Role::Atom { .. } | Role::Bond(_) | Role::Ring(_) | Role::Enter | Role::Leave) =>
            false,
    }
}

/// No atom is the predecessor of one directly behind a dot.
fn unless_dot(after_dot: bool, atom: Option<u32>) -> Option<u32>
    ensures { result ≡ unless_dot after_dot atom }
{
    if after_dot { None } else { atom }
}

/// The branches that are open behind the tokens so far.
#[derive(Drop)]
pub struct Branches {
    /// the latest open atom
    latest: Option<u32>,
    /// the atoms to which one goes back when branches close, the latest last
    returns: SmallVec<Option<u32>, 8>,
}

impl Branches {
    ghost use Rattle.std.specs.Prelude.{◌≡◌, [], ◌∷◌, List, OnOk};
    ghost use Rattle.smi_graph.specs.declared.role.Role.{Role};
    ghost use Rattle.smi_graph.specs.Order.{latest};
    ghost use Rattle.smi_graph.specs.Bonds.{atom_count, predecessor};
    ghost use Rattle.smi_graph.specs.Branches.{AreOpen};

    /// At the beginning of a text.
    pub fn none(alloc: Global) -> Branches
        ensures { AreOpen result [] }
    {
        Branches {
            latest: None,
            returns: SmallVec::new(alloc),
        }
    }

    /// The predecessor of an atom that stands here, behind the latest token.
    #[inline(always)]
    pub fn predecessor(&self, previous: Option<Role>) -> Option<u32>
        ensures { (before : List Role) → previous ≡ latest before → AreOpen self.now before → result ≡ predecessor before }
    {
        unless_dot(is_dot(previous), self.latest)
    }

    /// One more token, which has this number if it is an atom.
    #[inline(always)]
    pub fn read(&mut self, role: Role, atom: u32) -> Result<(), AllocError>
        ensures { OnOk result ((before : List Role) → atom ≡ atom_count before → AreOpen self.old before → AreOpen self.new (role ∷ before)) }
    {
        match role {
            Role::Atom { .. } => self.latest = Some(atom),
            Role::Enter => self.returns.push(self.latest)?,
            Role::Leave => self.latest = self.returns.pop().unwrap_or(None),
            Role::Bond(_) | Role::Ring(_) | Role::Dot => {}
        }
        Ok(())
    }
}
