use crate::{Bond, HalfEdge};
use mc_base::{AtomId, BondId};
use smallvec::SmallVec;
use std::alloc::{AllocError, Global};

/// For each atom its half-edges. Most atoms have at most four bonds, which are kept in place.
#[derive(Drop)]
pub struct Adjacency {
    pub lists: Vec<SmallVec<HalfEdge, 4>>,
}

impl Adjacency {
    ghost use Rattle.std.specs.Prelude.{◌≡◌, ◌≢◌, ◌+◌, ◌^◌, ◌<◌, ◌≤◌, ◌++◌, [], ◌∷◌, ℕ, length, reverse, vec_len, vec_capacity, All, IsOk, IfOk, OnOk, slice_index_or};
    ghost use Rattle.smallvec.specs.SmallVec.{SmallVec as Items, HasRoomFor};
    ghost use Rattle.mc_mol.specs.declared.parts.HalfEdge.{HalfEdge as Half};
    ghost use Rattle.mc_mol.specs.HalfEdges.{half_edges_by};
    ghost use Rattle.mc_mol.specs.WellFormed.{IsBond};
    ghost use Rattle.mc_mol.specs.declared.limits.TheConstants.{BOND_LIMIT};

    pub fn new(alloc: Global) -> Adjacency
        ensures { result.lists.items ≡ [] }
    {
        Adjacency {
            lists: Vec::new(alloc),
        }
    }

    /// The empty lists of so many atoms.
    fn without_bonds(alloc: Global, atoms: usize) -> Result<Adjacency, AllocError>
        ensures count { IfOk result (λ adjacency. length adjacency.lists.items ≡ atoms) }
        ensures empty { IfOk result (λ adjacency. (a : ℕ) (d : Items Half) → a < atoms → (slice_index_or adjacency.lists.items a d).items ≡ []) }
    {
        let mut lists = Vec::with_capacity(alloc, atoms)?;
        for _ in 0..atoms {
            lists.push_reserved(SmallVec::new(alloc));
        }
        Ok(Adjacency { lists })
    }

    /// The lists of so many atoms with these bonds.
    pub fn of_bonds(alloc: Global, atoms: usize, bonds: &[Bond]) -> Result<Adjacency, AllocError>
        requires few { length bonds.now ≤ BOND_LIMIT }
        requires bonds { All (IsBond atoms) bonds.now }
        ensures count { IfOk result (λ adjacency. length adjacency.lists.items ≡ atoms) }
        ensures each { IfOk result (λ adjacency. (a : ℕ) (d : Items Half) → a < atoms → (slice_index_or adjacency.lists.items a d).items ≡ half_edges_by (reverse bonds.now) a) }
    {
        let mut adjacency = Adjacency::without_bonds(alloc, atoms)?;
        for (k, bond) in bonds.iter().enumerate() {
            adjacency.join(BondId(k as u32), bond.first, bond.second)?;
        }
        Ok(adjacency)
    }

    /// Takes room for the list of one more atom.
    pub fn reserve_atom(&mut self) -> Result<(), AllocError>
        ensures items { self.new.lists.items ≡ self.old.lists.items }
        ensures room { OnOk result (vec_len self.new.lists < vec_capacity self.new.lists) }
    {
        self.lists.reserve(1)
    }

    /// Adds the empty list of one more atom.
    pub fn push_atom(&mut self, alloc: Global)
        requires { vec_len self.old.lists < vec_capacity self.old.lists }
        ensures { (capacity : ℕ) × (self.new.lists.items ≡ self.old.lists.items ++ record { items = []; capacity = capacity } ∷ []) }
    {
        self.lists.push_reserved(SmallVec::new(alloc));
    }

    /// The half-edges of an atom.
    pub fn of(&self, a: usize) -> &[HalfEdge]
        requires { a < length self.now.lists.items }
        ensures { (d : Items Half) → result.now ≡ (slice_index_or self.now.lists.items a d).items }
    {
        self.lists[a].as_slice()
    }

    /// Takes room for one more half-edge at an atom.
    pub fn reserve_at(&mut self, a: usize) -> Result<(), AllocError>
        requires { a < length self.old.lists.items }
        ensures count { length self.new.lists.items ≡ length self.old.lists.items }
        ensures items { (k : ℕ) (d : Items Half) → (slice_index_or self.new.lists.items k d).items ≡ (slice_index_or self.old.lists.items k d).items }
        ensures room { OnOk result ((d : Items Half) → HasRoomFor (slice_index_or self.new.lists.items a d) 1) }
        ensures others { (k : ℕ) (d : Items Half) → k ≢ a → slice_index_or self.new.lists.items k d ≡ slice_index_or self.old.lists.items k d }
    {
        self.lists[a].reserve(1)?;
        Ok(())
    }

    /// Adds a half-edge at an atom.
    fn push_at(&mut self, a: usize, half: HalfEdge) -> Result<(), AllocError>
        requires { a < length self.old.lists.items }
        ensures count { length self.new.lists.items ≡ length self.old.lists.items }
        ensures here { OnOk result ((d : Items Half) → (slice_index_or self.new.lists.items a d).items ≡ (slice_index_or self.old.lists.items a d).items ++ half ∷ []) }
        ensures succeeds { ((d : Items Half) → HasRoomFor (slice_index_or self.old.lists.items a d) 1) → IsOk result }
        ensures others { (k : ℕ) (d : Items Half) → k ≢ a → slice_index_or self.new.lists.items k d ≡ slice_index_or self.old.lists.items k d }
    {
        self.lists[a].push(half)?;
        Ok(())
    }

    /// Adds the two half-edges of a bond, each with the place of the other.
    pub fn join(&mut self, bond: BondId, first: AtomId, second: AtomId) -> Result<(), AllocError>
        requires first { first.0 < length self.old.lists.items }
        requires second { second.0 < length self.old.lists.items }
        requires different { first.0 ≢ second.0 }
        requires first_few { (d : Items Half) → length (slice_index_or self.old.lists.items first.0 d).items < 2 ^ 32 }
        requires second_few { (d : Items Half) → length (slice_index_or self.old.lists.items second.0 d).items < 2 ^ 32 }
        ensures count { length self.new.lists.items ≡ length self.old.lists.items }
        ensures at_first { OnOk result ((d e : Items Half) → (slice_index_or self.new.lists.items first.0 d).items ≡ (slice_index_or self.old.lists.items first.0 d).items ++ record { bond = bond; to = second; twin = length (slice_index_or self.old.lists.items second.0 e).items } ∷ []) }
        ensures at_second { OnOk result ((d e : Items Half) → (slice_index_or self.new.lists.items second.0 d).items ≡ (slice_index_or self.old.lists.items second.0 d).items ++ record { bond = bond; to = first; twin = length (slice_index_or self.old.lists.items first.0 e).items } ∷ []) }
        ensures others { (k : ℕ) (d : Items Half) → k ≢ first.0 → k ≢ second.0 → slice_index_or self.new.lists.items k d ≡ slice_index_or self.old.lists.items k d }
        ensures succeeds { ((d : Items Half) → HasRoomFor (slice_index_or self.old.lists.items first.0 d) 1) → ((d : Items Half) → HasRoomFor (slice_index_or self.old.lists.items second.0 d) 1) → IsOk result }
    {
        let at_first = self.of(first.0 as usize).len() as u32;
        let at_second = self.of(second.0 as usize).len() as u32;
        self.push_at(
            first.0 as usize,
            HalfEdge {
                bond,
                to: second,
                twin: at_second,
            },
        )?;
        self.push_at(
            second.0 as usize,
            HalfEdge {
                bond,
                to: first,
                twin: at_first,
            },
        )
    }
}
