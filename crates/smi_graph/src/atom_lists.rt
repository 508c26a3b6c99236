use crate::{Role, TextBond};
use mc_base::AtomId;
use smallvec::SmallVec;
use std::alloc::{AllocError, Global};

/// The neighbours of the atoms so far, each in the order in which it stands at its atom. A ring number that opens has a
/// slot in its atom's list, which the one that closes it fills.
#[derive(Drop)]
pub struct AtomLists {
    alloc: Global,
    /// for each atom its neighbours, and behind them those of the next atom, which has none yet
    lists: Vec<SmallVec<AtomId, 4>>,
    /// for each atom whether it has a predecessor, which is then its first neighbour
    led: Vec<bool>,
    /// for each ring number, from 0 on, its latest slot
    slots: SmallVec<usize, 4>,
}

impl AtomLists {
    ghost use Rattle.std.specs.Prelude.{◌≡◌, ◌-◌, ◌<◌, ◌==◌, ℕ, Bool, List, [], ◌∷◌, Option, Some, None, OnOk, IfOk, Vec, length, get_or, slice_index_or, if◌then◌else◌};
    ghost use Rattle.smallvec.specs.SmallVec.{SmallVec as Items};
    ghost use Rattle.mc_base.specs.declared.ids.AtomId.{AtomId};
    ghost use Rattle.smi_graph.specs.declared.role.Role.{Role};
    ghost use Rattle.smi_graph.specs.declared.role.Role.TheVariants.{Atom as AtomRole, Ring as RingRole};
    ghost use Rattle.smi_graph.specs.declared.ring_table.RingEnd.{RingEnd};
    ghost use Rattle.smi_graph.specs.Bonds.{atom_count, open_end, completed};
    ghost use Rattle.smi_graph.specs.RingSlots.{lists_in, AreEntries, HoldsNeighbours, IsPushed, IsFilled, AreJoined};

    /// At the beginning of a text, with room for so many atoms.
    pub fn with_room(alloc: Global, atoms: usize) -> Result<AtomLists, AllocError>
        ensures { IfOk result (λ lists. HoldsNeighbours lists []) }
    {
        let mut lists = AtomLists {
            alloc,
            lists: Vec::with_capacity(alloc, atoms)?,
            led: Vec::with_capacity(alloc, atoms)?,
            slots: SmallVec::new(alloc),
        };
        lists.lists.push(SmallVec::new(alloc))?;
        Ok(lists)
    }

    /// For each atom its neighbours, and whether it has a predecessor.
    pub fn into_parts(self) -> (Vec<SmallVec<AtomId, 4>>, Vec<bool>)
        ensures lists { (before : List Role) → HoldsNeighbours self before → AreEntries before (lists_in result.0.items) }
        ensures led { result.1 ≡ self.led }
    {
        let AtomLists {
            alloc: _,
            mut lists,
            led,
            slots: _,
        } = self;
        lists.pop();
        (lists, led)
    }

    /// Adds a neighbour at an atom.
    fn push_at(&mut self, a: usize, neighbour: AtomId) -> Result<(), AllocError>
        ensures pushed { OnOk result (IsPushed a neighbour self.old.lists.items self.new.lists.items) }
        ensures count { length self.new.lists.items ≡ length self.old.lists.items }
        ensures led { self.new.led ≡ self.old.led }
        ensures slots { self.new.slots ≡ self.old.slots }
    {
        if a < self.lists.len() {
            self.lists[a].push(neighbour)?;
        }
        Ok(())
    }

    /// Fills a slot of an atom.
    fn fill_at(&mut self, a: usize, slot: usize, neighbour: AtomId)
        ensures filled { IsFilled a slot neighbour self.old.lists.items self.new.lists.items }
        ensures count { length self.new.lists.items ≡ length self.old.lists.items }
        ensures led { self.new.led ≡ self.old.led }
        ensures slots { self.new.slots ≡ self.old.slots }
    {
        if a < self.lists.len() {
            let list = self.lists[a].as_mut_slice();
            if slot < list.len() {
                list[slot] = neighbour;
            }
        }
    }

    /// How many neighbours an atom has so far.
    fn count_at(&self, a: usize) -> usize
        ensures { (d : Items AtomId) → a < length self.now.lists.items → result ≡ length (slice_index_or self.now.lists.items a d).items }
    {
        if a < self.lists.len() {
            self.lists[a].len()
        } else {
            0
        }
    }

    /// Makes room for a ring number.
    fn reach(&mut self, number: u8) -> Result<(), AllocError>
        ensures long { OnOk result (number < length self.new.slots.items) }
        ensures same { OnOk result ((n : ℕ) → get_or self.new.slots.items n 0 ≡ get_or self.old.slots.items n 0) }
        ensures lists { self.new.lists ≡ self.old.lists }
        ensures led { self.new.led ≡ self.old.led }
    {
        while self.slots.len() <= number as usize {
            self.slots.push(0)?;
        }
        Ok(())
    }

    /// Keeps the latest slot of a ring number.
    fn set_slot(&mut self, number: u8, slot: usize) -> Result<(), AllocError>
        ensures set { OnOk result ((n : ℕ) → get_or self.new.slots.items n 0 ≡ (if number == n then slot else get_or self.old.slots.items n 0)) }
        ensures lists { self.new.lists ≡ self.old.lists }
        ensures led { self.new.led ≡ self.old.led }
    {
        self.reach(number)?;
        self.slots[number as usize] = slot;
        Ok(())
    }

    /// The latest slot of a ring number.
    fn slot_of(&self, number: u8) -> usize
        ensures { result ≡ get_or self.now.slots.items number 0 }
    {
        match self.slots.get(number as usize) {
            Some(slot) => *slot,
            None => 0,
        }
    }

    /// Adds the two atoms of a bond to each other's neighbours.
    fn join(&mut self, bond: TextBond) -> Result<(), AllocError>
        ensures joined { OnOk result (AreJoined (Some bond) self.old.lists.items self.new.lists.items) }
        ensures count { OnOk result (length self.new.lists.items ≡ length self.old.lists.items) }
        ensures led { self.new.led ≡ self.old.led }
        ensures slots { self.new.slots ≡ self.old.slots }
    {
        self.push_at(bond.second.0 as usize, bond.first)?;
        self.push_at(bond.first.0 as usize, bond.second)?;
        Ok(())
    }

    /// Adds what an atom's token tells of its predecessor, where it has one.
    fn join_some(&mut self, bond: Option<TextBond>) -> Result<(), AllocError>
        ensures joined { OnOk result (AreJoined bond self.old.lists.items self.new.lists.items) }
        ensures count { OnOk result (length self.new.lists.items ≡ length self.old.lists.items) }
        ensures led { self.new.led ≡ self.old.led }
        ensures slots { self.new.slots ≡ self.old.slots }
    {
        match bond {
            Some(bond) => self.join(bond),
            None => Ok(()),
        }
    }

    /// One more atom, with the bond to its predecessor, where it has one.
    fn atom(&mut self, bond: Option<TextBond>) -> Result<(), AllocError>
        ensures { OnOk result ((lower : Bool) (before : List Role) → bond ≡ completed before (AtomRole lower) → HoldsNeighbours self.old before → HoldsNeighbours self.new (AtomRole lower ∷ before)) }
    {
        self.join_some(bond)?;
        self.led.push(bond.is_some())?;
        self.lists.push(SmallVec::new(self.alloc))?;
        Ok(())
    }

    /// A ring number that opens at an atom; it waits for its partner.
    fn open(&mut self, number: u8, here: usize) -> Result<(), AllocError>
        ensures { OnOk result ((before : List Role) → here ≡ atom_count before - 1 → open_end number before ≡ None → HoldsNeighbours self.old before → HoldsNeighbours self.new (RingRole number ∷ before)) }
    {
        let slot = self.count_at(here);
        self.push_at(here, AtomId(0))?;
        self.set_slot(number, slot)?;
        Ok(())
    }

    /// A ring number that closes: its bond joins the atom of the number that is open and the one at which it stands.
    fn close(&mut self, number: u8, bond: TextBond) -> Result<(), AllocError>
        ensures { OnOk result ((before : List Role) (end : RingEnd) → bond.second.0 ≡ atom_count before - 1 → bond.first.0 ≡ end.atom → open_end number before ≡ Some end → HoldsNeighbours self.old before → HoldsNeighbours self.new (RingRole number ∷ before)) }
    {
        let here = bond.second.0 as usize;
        let own = self.count_at(here);
        let slot = self.slot_of(number);
        self.fill_at(bond.first.0 as usize, slot, bond.second);
        self.push_at(here, bond.first)?;
        self.set_slot(number, own)?;
        Ok(())
    }

    /// One more token. A ring number of it stands at this atom; the bond is the one that the token completes.
    pub fn read(&mut self, role: Role, here: u32, bond: Option<TextBond>) -> Result<(), AllocError>
        ensures { OnOk result ((before : List Role) → here ≡ atom_count before - 1 → bond ≡ completed before role → HoldsNeighbours self.old before → HoldsNeighbours self.new (role ∷ before)) }
    {
        match role {
            Role::Atom { .. } => self.atom(bond),
            Role::Ring(number) => match bond {
                Some(bond) => self.close(number, bond),
                None => self.open(number, here as usize),
            },
            Role::Bond(_) | Role::Enter | Role::Leave | Role::Dot => Ok(()),
        }
    }
}
