ghost use Rattle.std.specs.Prelude.{◌≡◌, ◌++◌, [], ◌∷◌, OnOk, OnErr};
ghost use Rattle.ct_sd.specs.Bonds.{is_joined, in_order};

use indexmap::IndexSet;
use mc_base::NoMemory;
use std::alloc::Global;
use std::marker::Model;

/// The pairs of atoms that are joined by the bonds so far.
#[derive(Drop)]
pub struct JoinedPairs {
    pairs: Vec<(u32, u32)>,
    /// each pair once, its lesser atom first
    seen: IndexSet<(u32, u32)>,
}

impl Model for JoinedPairs {
    ghost use Rattle.std.specs.Prelude.{List};
    ghost use Rattle.ct_sd.specs.Bonds.{Pair, KnowsPairs};

    ghost Value = { List Pair };

    ghost view = { λ j. j.pairs.items };

    ghost invariant = { λ j. KnowsPairs j.seen.keys j.pairs.items };
}

impl JoinedPairs {
    #[tactic(auto, using(crate::proofs::KeptPairs::knows_none))]
    pub fn new(alloc: Global) -> JoinedPairs
        ensures { result ≡ [] }
    {
        JoinedPairs {
            pairs: Vec::new(alloc),
            seen: IndexSet::new(alloc),
        }
    }

    pub fn push(&mut self, pair: (u32, u32)) -> Result<(), NoMemory>
        ensures ok { OnOk result (self.new ≡ self.old ++ pair ∷ []) }
        ensures err { OnErr result (self.new ≡ self.old) }
    {
        self.pairs.reserve(1)?;
        self.seen.insert(in_order(pair))?;
        self.pairs.push_reserved(pair);
        Ok(())
    }

    /// Whether a pair is joined, whichever of its atoms comes first.
    pub fn contains(&self, pair: (u32, u32)) -> bool
        ensures { result ≡ is_joined pair.0 pair.1 self.now }
    {
        self.seen.contains(&in_order(pair))
    }
}

fn in_order(pair: (u32, u32)) -> (u32, u32)
    ensures { result ≡ in_order pair.0 pair.1 }
{
    if pair.0 <= pair.1 {
        pair
    } else {
        (pair.1, pair.0)
    }
}
