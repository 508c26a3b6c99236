ghost use Rattle.std.specs.Prelude.{◌≡◌, ℕ, Bool, ◌+◌, None};
ghost use Rattle.smi_graph.specs.Firsts.{IsFirstOf};

use mc_base::Kind;

/// A kind that stands, and its place: a token from 0, an atom from 1, or a count.
#[derive(Clone, Copy, Debug, PartialEq, Eq)]
pub struct Fault {
    pub kind: Kind,
    pub place: u32,
}

/// The first of the numbers so far that passes, with one more number.
#[inline(always)]
fn or_here(first: Option<u32>, passes: bool, i: u32) -> Option<u32>
    ensures { (p : ℕ → Bool) → (first ≡ None → p i ≡ passes) → IsFirstOf p i first → IsFirstOf p (i + 1) result }
{
    match first {
        Some(first) => Some(first),
        None => { if passes { Some(i) } else { None } }
    }
}

/// The first token of each kind of fault that shows as the tokens are read.
#[derive(Clone, Copy)]
pub struct FirstFaults {
    /// the first token that may not stand where it does
    pub misplaced: Option<u32>,
    /// the first closing number whose symbol clashes
    pub clash: Option<u32>,
    /// the first closing number that joins what is joined already
    pub pair: Option<u32>,
}

impl FirstFaults {
    ghost use Rattle.std.specs.Prelude.{◌≡◌, ◌+◌, List, None};
    ghost use Rattle.smi_graph.specs.declared.role.Role.{Role};
    ghost use Rattle.smi_graph.specs.Order.{misplaced_at};
    ghost use Rattle.smi_graph.specs.RingRules.{clash_at, pair_again_at};
    ghost use Rattle.smi_graph.specs.Firsts.{AreFirst};

    /// Of no tokens.
    pub fn none() -> FirstFaults
        ensures first { (ks : List Role) → AreFirst ks 0 result }
    {
        FirstFaults {
            misplaced: None,
            clash: None,
            pair: None,
        }
    }

    /// With one more token, of number i. Whether it has a fault is asked only where none has had it.
    #[inline(always)]
    pub fn with(self, i: u32, misplaced: bool, clash: bool, pair: bool) -> FirstFaults
        ensures { (ks : List Role) → (self.misplaced ≡ None → misplaced_at ks i ≡ misplaced) → (self.clash ≡ None → clash_at ks i ≡ clash) → (self.pair ≡ None → pair_again_at ks i ≡ pair) → AreFirst ks i self → AreFirst ks (i + 1) result }
    {
        FirstFaults {
            misplaced: or_here(self.misplaced, misplaced, i),
            clash: or_here(self.clash, clash, i),
            pair: or_here(self.pair, pair, i),
        }
    }
}
