ghost use Rattle.std.specs.Prelude.{◌≡◌, List, Some, None, ◌∷◌, [], IfOk, IfErr};
ghost use Rattle.ct_sd.specs.declared.fault.Fault.{Fault};
ghost use Rattle.ct_sd.specs.Faults.{IsShown, IsRefused, AreNone, first_of, sooner, faults_at, shown_if, comes_before, refusal_of};

use mc_base::{Kind, Refusal, Stop};
use std::alloc::Global;

/// A kind that stands in a record, and its place.
#[derive(Clone, Copy, Debug, PartialEq, Eq)]
pub struct Fault {
    pub kind: Kind,
    pub place: u32,
}

impl Fault {
    /// The least kind comes before, and of one kind the least place.
    fn comes_before(self, other: Fault) -> bool
        ensures { result ≡ comes_before self other }
    {
        let (number, least) = (self.kind.number(), other.kind.number());
        number < least || number == least && self.place < other.place
    }

    fn refusal(self, alloc: Global) -> Refusal
        ensures { result ≡ refusal_of self }
    {
        Refusal::at(alloc, self.kind, self.place)
    }
}

/// Of all faults that were noted the one that comes first.
#[derive(Clone, Copy, Debug, PartialEq, Eq)]
pub struct FirstFault {
    pub fault: Option<Fault>,
}

impl FirstFault {
    pub fn none() -> FirstFault
        ensures { result.fault ≡ None }
    {
        FirstFault { fault: None }
    }

    /// The first of what was noted and one more.
    fn with(self, fault: Fault) -> Fault
        ensures { Some result ≡ sooner self.fault fault }
    {
        match self.fault {
            Some(first) if !fault.comes_before(first) => first,
            _ => fault,
        }
    }

    /// Notes one more.
    pub fn note(&mut self, kind: Kind, place: u32)
        ensures { self.new.fault ≡ first_of self.old.fault (record { kind = kind; place = place } ∷ []) }
    {
        self.fault = Some(self.with(Fault { kind, place }));
    }

    /// Notes one more where a test holds.
    pub fn note_if(&mut self, test: bool, kind: Kind, place: u32)
        ensures { self.new.fault ≡ first_of self.old.fault (faults_at place (shown_if test kind)) }
    {
        if test {
            self.note(kind, place);
        }
    }

    /// The refusal of a record whose faults are those that were noted and one more.
    pub fn refuse(self, alloc: Global, kind: Kind, place: u32) -> Stop
        ensures { (faults : List Fault) → first_of None faults ≡ first_of self.fault (record { kind = kind; place = place } ∷ []) → IsRefused faults result }
    {
        Stop::Refused(self.with(Fault { kind, place }).refusal(alloc))
    }

    /// The refusal of a record whose faults are those that were noted, where there is one.
    #[tactic(auto, using(crate::proofs::First::nothing_shown))]
    pub fn accept(self, alloc: Global) -> Result<(), Stop>
        ensures ok { (faults : List Fault) → first_of None faults ≡ self.fault → IfOk result (λ _. AreNone faults) }
        ensures err { (faults : List Fault) → first_of None faults ≡ self.fault → IfErr result (IsRefused faults) }
    {
        match self.fault {
            Some(fault) => Err(Stop::Refused(fault.refusal(alloc))),
            None => Ok(()),
        }
    }
}

/// The fault that is kept of a record's faults is a refusal that they show: its kind stands at its place and at no
/// lesser place, and no lesser kind stands anywhere. Where none is kept no kind stands.
#[tactic(auto, using(crate::proofs::First::first_is_shown))]
pub fn first_fault_law()
    ensures { (faults : List Fault) → IsShown faults (first_of None faults) }
{}
