ghost use Rattle.std.specs.Prelude.{◌≡◌, ◌<◌, ◌≤◌, ◌↔◌, ℕ, length, IfOk, IsTrue};
ghost use Rattle.mc_mol.specs.Numbered.{Mark};
ghost use Rattle.mc_rings.specs.Distances.{AreDistances};

use mc_base::{AtomId, NoMemory};
use mc_mol::{Bond, Mol};
use std::alloc::Global;
use std::mem;

/// A search from the first end of a bond, level by level, that doesn't step along the bond.
#[derive(Drop)]
pub struct Search {
    /// for each atom that is found, its number of steps
    marks: Vec<Option<u32>>,
    /// the atoms of the next level so far
    next: Vec<AtomId>,
}

impl Search {
    ghost use Rattle.std.specs.Prelude.{◌≡◌, ◌+◌, ◌^◌, ◌<◌, [], ◌∷◌, List, length, slice_set, replicate, None, Some, OnOk, IfOk, IsTrue, false, ℕ, ◌⊎◌};
    ghost use Rattle.mc_base.specs.declared.ids.AtomId.{AtomId as Atom};
    ghost use Rattle.mc_mol.specs.Numbered.{Mark, unmarked, Keeps};
    ghost use Rattle.mc_rings.specs.Distances.{AreDistances};
    ghost use Rattle.mc_rings.specs.Levels.{Between, Reaches, LevelDone, AtomDone};

    /// The start has the number 0.
    fn new(alloc: Global, count: usize, start: AtomId) -> Result<Search, NoMemory>
        requires { start.0 < count }
        ensures marks { IfOk result (λ search. search.marks.items ≡ slice_set (replicate count None) start.0 (Some 0)) }
        ensures next { IfOk result (λ search. search.next.items ≡ []) }
    {
        let mut marks = vec![in alloc; None; count]?;
        marks[start.0 as usize] = Some(0);
        Ok(Search {
            marks,
            next: Vec::new(alloc),
        })
    }

    /// Gives an atom this number, if it has none yet.
    fn reach(&mut self, atom: AtomId, number: u32) -> Result<(), NoMemory>
        requires { atom.0 < length self.old.marks.items }
        ensures count { length self.new.marks.items ≡ length self.old.marks.items }
        ensures kept { Keeps self.old.marks.items self.new.marks.items }
        ensures reached { OnOk result (Reaches self.old.marks.items self.old.next.items self.new.marks.items self.new.next.items atom number) }
    {
        if let None = self.marks[atom.0 as usize] {
            self.next.push(atom)?;
            self.marks[atom.0 as usize] = Some(number);
        }
        Ok(())
    }

    /// Numbers the neighbours of an atom of the level.
    fn explore(&mut self, mol: &Mol, bond: Bond, level: u32, atom: AtomId) -> Result<(), NoMemory>
        requires atom { atom.0 < length mol.now.atoms }
        requires count { length self.old.marks.items ≡ length mol.now.atoms }
        requires level { level + 1 < 2 ^ 32 }
        ensures count { length self.new.marks.items ≡ length self.old.marks.items }
        ensures kept { Keeps self.old.marks.items self.new.marks.items }
        ensures total { OnOk result (length self.new.next.items + unmarked self.new.marks.items ≡ length self.old.next.items + unmarked self.old.marks.items) }
        ensures done { OnOk result ((current : List Atom) → Between mol.now.bonds bond.first.0 bond.second.0 (length mol.now.atoms) level current self.old.marks.items self.old.next.items → Mark self.old.marks.items atom.0 level → AtomDone mol.now.bonds bond.first.0 bond.second.0 (length mol.now.atoms) level current atom.0 self.new.marks.items self.new.next.items) }
    {
        for half in mol.bonds_of(atom) {
            if is_along(bond, atom, half.to) {
                continue;
            }
            self.reach(half.to, level + 1)?;
        }
        Ok(())
    }

    /// Numbers the neighbours of all atoms of the level.
    fn explore_all(
        &mut self,
        mol: &Mol,
        bond: Bond,
        level: u32,
        current: &[AtomId],
    ) -> Result<(), NoMemory>
        requires level { level + 1 < 2 ^ 32 }
        requires state { Between mol.now.bonds bond.first.0 bond.second.0 (length mol.now.atoms) level current.now self.old.marks.items self.old.next.items }
        ensures total { OnOk result (length self.new.next.items + unmarked self.new.marks.items ≡ length self.old.next.items + unmarked self.old.marks.items) }
        ensures done { OnOk result (LevelDone mol.now.bonds bond.first.0 bond.second.0 (length mol.now.atoms) level current.now self.new.marks.items self.new.next.items) }
    {
        for atom in current {
            self.explore(mol, bond, level, *atom)?;
        }
        Ok(())
    }

    /// The atoms of the next level are the current ones from now on.
    fn take_next(&mut self, current: &mut Vec<AtomId>)
        ensures marks { self.new.marks.items ≡ self.old.marks.items }
        ensures empty { self.new.next.items ≡ [] }
        ensures next { current.new.items ≡ self.old.next.items }
    {
        mem::swap(current, &mut self.next);
        self.next.clear();
    }

    /// Whether there is a level to explore, and an atom that hasn't been reached yet.
    fn goes_on(&self, current: &[AtomId], end: AtomId) -> bool
        requires { end.0 < length self.now.marks.items }
        ensures more { IsTrue result → 0 < length current.now }
        ensures done { result ≡ false → (length current.now ≡ 0) ⊎ ((d : ℕ) × (Mark self.now.marks.items end.0 d)) }
    {
        if current.is_empty() {
            return false;
        }
        match self.marks[end.0 as usize] {
            None => true,
            Some(_) => false,
        }
    }
}

/// For each atom the least number of steps from the bond's first end to it, where no step leads
/// along the bond to its second end, as far as the second end; none where there is no such way.
pub fn distances(alloc: Global, mol: &Mol, bond: Bond) -> Result<Vec<Option<u32>>, NoMemory>
    requires first { bond.first.0 < length mol.now.atoms }
    requires second { bond.second.0 < length mol.now.atoms }
    ensures count { IfOk result (λ marks. length marks.items ≡ length mol.now.atoms) }
    ensures few { IfOk result (λ marks. (a d : ℕ) → Mark marks.items a d → d ≤ 1000) }
    ensures distances { IfOk result (λ marks. AreDistances mol.now.bonds bond.first.0 bond.second.0 marks.items) }
{
    let mut search = Search::new(alloc, mol.atom_count() as usize, bond.first)?;
    let mut current = vec![in alloc; bond.first]?;
    let mut level = 0;
    'levels: while search.goes_on(&current, bond.second) {
        search.explore_all(mol, bond, level, &current)?;
        search.take_next(&mut current);
        level += 1;
    }
    Ok(search.marks)
}

/// Whether a step leads along the bond, from its first end to its second.
fn is_along(bond: Bond, from: AtomId, to: AtomId) -> bool
    ensures { IsTrue result ↔ ((from.0 ≡ bond.first.0) × (to.0 ≡ bond.second.0)) }
{
    from.0 == bond.first.0 && to.0 == bond.second.0
}
