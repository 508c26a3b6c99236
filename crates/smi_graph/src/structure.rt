ghost use Rattle.std.specs.Prelude.{◌≡◌, ◌+◌, ◌≤◌, ◌∷◌, ◌++◌, List, OnOk, option_to_list};
ghost use Rattle.smi_graph.specs.declared.role.Role.{Role};
ghost use Rattle.smi_graph.specs.Bonds.{atom_count};
ghost use Rattle.smi_graph.specs.Reading.{mark_in};

use crate::atom_lists::AtomLists;
use crate::branches::Branches;
use crate::first_faults::{Fault, FirstFaults};
use crate::joined::pairs_again;
use crate::ring_table::RingTable;
use crate::text_bond::{chain_bond, ring_bond, some_clashes};
use crate::token_order::{TokenOrder, may_end};
use crate::tokens::roles_of;
use crate::unclosed::first_unclosed;
use crate::{RingEnd, Role, TextBond};
use mc_base::Kind;
use smi_lex::BondMark;
use std::alloc::{AllocError, Global};

fn mark_in(latest: Option<Role>) -> Option<BondMark>
    ensures { result ≡ mark_in latest }
{
    match latest {
        Some(Role::Bond(mark)) => Some(mark),
        None | Some(Role::Atom { .. } | Role::Ring(_) | Role::Enter | Role::Leave | Role::Dot) =>
            None,
    }
}

/// How many atoms a token is.
#[inline(always)]
fn atoms_of(role: Role) -> u32
    ensures count { (before : List Role) → atom_count (role ∷ before) ≡ atom_count before + result }
    ensures one { result ≤ 1 }
{
    match role {
        Role::Atom { .. } => 1,
        Role::Bond(_) | Role::Ring(_) | Role::Enter | Role::Leave | Role::Dot => 0,
    }
}

#[inline(always)]
fn push_some(bonds: &mut Vec<TextBond>, bond: Option<TextBond>) -> Result<(), AllocError>
    ensures { OnOk result (bonds.new.items ≡ bonds.old.items ++ option_to_list bond) }
{
    match bond {
        Some(bond) => bonds.push(bond)?,
        None => {}
    }
    Ok(())
}

/// What the tokens so far do: the bonds that they complete, what is open behind them, and the first of them that are
/// wrong by each rule.
#[derive(Drop)]
pub struct Structure {
    bonds: Vec<TextBond>,
    tokens: u32,
    /// how many atoms there are
    count: u32,
    /// the latest token
    latest: Option<Role>,
    branches: Branches,
    neighbours: AtomLists,
    rings: RingTable,
    /// which token may stand next, where none is misplaced
    order: TokenOrder,
    faults: FirstFaults,
}

impl Structure {
    ghost use Rattle.std.specs.Prelude.{◌≡◌, ◌+◌, ◌-◌, ◌<◌, ◌^◌, ℕ, List, [], ◌∷◌, ◌≤◌, ◌||◌, IfOk, IfSome, OnOk, OnErr, length, reverse, get_or, Some, None, true, false};
    ghost use Rattle.smi_graph.specs.declared.role.Role.{Role};
    ghost use Rattle.smi_graph.specs.Faults.{IsFirstFault};
    ghost use Rattle.smi_graph.specs.Order.{misplaced_at, unclosed_at, tokens_before};
    ghost use Rattle.smi_graph.specs.Bonds.{ring_end, completed};
    ghost use Rattle.smi_graph.specs.RingRules.{is_clash, is_pair_again};
    ghost use Rattle.smi_graph.specs.RingTables.{IsFirstOpen};
    ghost use Rattle.smi_graph.specs.Firsts.{IsFirstOf, AreFirst};
    ghost use Rattle.smi_graph.specs.Reading.{Follows, IsBehind, IsBounded, Reads};
    ghost use Rattle.smi_graph.specs.Rules.{WrongAt, roles_in};

    /// Of no tokens, with room for so many atoms and as many bonds.
    pub fn with_room(alloc: Global, room: usize) -> Result<Structure, AllocError>
        ensures follows { IfOk result (λ structure. (ks : List Role) → Follows ks structure) }
        ensures bounded { IfOk result IsBounded }
        ensures tokens { IfOk result (λ structure. structure.tokens ≡ 0) }
    {
        Ok(Structure {
            bonds: Vec::with_capacity(alloc, room)?,
            tokens: 0,
            count: 0,
            latest: None,
            branches: Branches::none(alloc),
            neighbours: AtomLists::with_room(alloc, room)?,
            rings: RingTable::none(alloc),
            order: TokenOrder::start(),
            faults: FirstFaults::none(),
        })
    }

    /// A ring number that stands here.
    #[inline(always)]
    fn here(&self) -> RingEnd
        ensures { (before : List Role) → Reads self.now before → result ≡ ring_end before }
    {
        RingEnd {
            token: self.tokens,
            atom: self.count.saturating_sub(1),
            mark: mark_in(self.latest),
        }
    }

    /// The bond that a token completes which stands here.
    #[inline(always)]
    fn completed(&self, role: Role) -> Option<TextBond>
        ensures { (before : List Role) → Reads self.now before → result ≡ completed before role }
    {
        match role {
            Role::Atom { .. } => chain_bond(
                self.branches.predecessor(self.latest),
                self.count,
                mark_in(self.latest),
            ),
            Role::Ring(number) => ring_bond(self.rings.open_end(number), self.here()),
            Role::Bond(_) | Role::Enter | Role::Leave | Role::Dot => None,
        }
    }

    /// Whether a token of this place is the first closing number whose symbol says another order than that of the
    /// opening number.
    #[inline(always)]
    fn clashes_first(&self, role: Role, bond: Option<TextBond>) -> bool
        ensures { (before : List Role) → self.now.faults.clash ≡ None → bond ≡ completed before role → result ≡ is_clash before (Some role) }
    {
        match role {
            Role::Ring(_) => self.faults.clash.is_none() && some_clashes(bond),
            Role::Atom { .. } | Role::Bond(_) | Role::Enter | Role::Leave | Role::Dot => false,
        }
    }

    /// Whether a token of this place is the first closing number between atoms that are one, or are joined already.
    /// Nothing is looked up behind the first; up to it an atom closes each of the hundred numbers once at most.
    #[inline(always)]
    fn pairs_first(&self, role: Role, bond: Option<TextBond>) -> bool
        ensures { (before : List Role) → self.now.faults.pair ≡ None → Reads self.now before → bond ≡ completed before role → result ≡ is_pair_again before (Some role) }
    {
        match role {
            Role::Ring(_) => self.faults.pair.is_none() && pairs_again(&self.bonds, bond),
            Role::Atom { .. } | Role::Bond(_) | Role::Enter | Role::Leave | Role::Dot => false,
        }
    }

    /// Looks at a token that stands here, and completes this bond: whether it is wrong.
    #[inline(always)]
    fn look(&mut self, role: Role, bond: Option<TextBond>)
        requires few { self.old.tokens < 2 ^ 32 - 1 }
        requires bounded { IsBounded self.old }
        ensures order { (ks : List Role) (d : Role) → self.old.tokens < length ks → get_or ks self.old.tokens d ≡ role → bond ≡ completed (tokens_before ks self.old.tokens) role → Follows ks self.old → self.new.faults.misplaced ≡ None → IsBehind self.new.order (role ∷ tokens_before ks self.old.tokens) }
        ensures faults { (ks : List Role) (d : Role) → self.old.tokens < length ks → get_or ks self.old.tokens d ≡ role → bond ≡ completed (tokens_before ks self.old.tokens) role → Follows ks self.old → AreFirst ks (self.old.tokens + 1) self.new.faults }
        ensures depth { self.new.order.depth ≤ self.old.order.depth + 1 }
        ensures others { self.new ≡ record self.old { order = self.new.order; faults = self.new.faults } }
    {
        let next = self.order.behind(self.latest, role);
        let clash = self.clashes_first(role, bond);
        let pair = self.pairs_first(role, bond);
        self.faults = self.faults.with(self.tokens, next.is_none(), clash, pair);
        self.order = next.unwrap_or(self.order);
    }

    /// Takes a token that stands here, and completes this bond.
    #[inline(always)]
    fn take(&mut self, role: Role, bond: Option<TextBond>) -> Result<(), AllocError>
        requires tokens { self.old.tokens < 2 ^ 32 - 1 }
        requires count { self.old.count ≤ self.old.tokens }
        ensures reads { OnOk result ((before : List Role) → bond ≡ completed before role → Reads self.old before → Reads self.new (role ∷ before)) }
        ensures tokens { OnOk result (self.new.tokens ≡ self.old.tokens + 1) }
        ensures count { OnOk result (self.new.count ≤ self.old.count + 1) }
        ensures order { OnOk result (self.new.order ≡ self.old.order) }
        ensures faults { OnOk result (self.new.faults ≡ self.old.faults) }
    {
        let here = self.here();
        self.rings.read(role, here)?;
        self.branches.read(role, self.count)?;
        self.neighbours.read(role, here.atom, bond)?;
        push_some(&mut self.bonds, bond)?;
        self.count += atoms_of(role);
        self.tokens += 1;
        self.latest = Some(role);
        Ok(())
    }

    /// One more token.
    #[inline(always)]
    pub fn read(&mut self, role: Role) -> Result<(), AllocError>
        requires few { self.old.tokens < 2 ^ 32 - 1 }
        requires bounded { IsBounded self.old }
        ensures follows { OnOk result ((ks : List Role) (d : Role) → self.old.tokens < length ks → get_or ks self.old.tokens d ≡ role → Follows ks self.old → Follows ks self.new) }
        ensures bounded { OnOk result (IsBounded self.new) }
        ensures tokens { OnOk result (self.new.tokens ≡ self.old.tokens + 1) }
    {
        let bond = self.completed(role);
        self.look(role, bond);
        self.take(role, bond)?;
        Ok(())
    }

    /// The first place at which a token, or the end, may not stand, where these are all tokens.
    fn first_misplaced(&self) -> Option<u32>
        ensures { (ks : List Role) → self.now.tokens ≡ length ks → Follows ks self.now → IsFirstOf (misplaced_at ks) (length ks + 1) result }
    {
        match self.faults.misplaced {
            Some(first) => Some(first),
            None => {
                if may_end(self.latest) {
                    None
                } else {
                    Some(self.tokens)
                }
            }
        }
    }

    /// Whether no branch is open behind the tokens, and each of them may stand where it does.
    fn is_closed(&self) -> bool
        ensures { (ks : List Role) → result ≡ true → self.now.tokens ≡ length ks → Follows ks self.now → (i : ℕ) → unclosed_at ks i ≡ false }
    {
        self.faults.misplaced.is_none() && self.order.is_flat()
    }

    /// The first `(` of a text that is never closed, where these are all its tokens. They are read again only
    /// where a branch is open behind them.
    fn first_unclosed(&self, alloc: Global, text: &[u8]) -> Result<Option<usize>, AllocError>
        requires short { length text.now < 2 ^ 32 - 1 }
        requires follows { Follows (roles_in text.now) self.now }
        requires all { self.now.tokens ≡ length (roles_in text.now) }
        ensures first { IfOk result (IsFirstOf (unclosed_at (roles_in text.now)) (length (roles_in text.now))) }
        ensures small { IfOk result (λ found. IfSome found (λ i. i < 2 ^ 32)) }
    {
        if self.is_closed() {
            return Ok(None);
        }
        let roles = roles_of(alloc, text)?;
        Ok(first_unclosed(&roles))
    }

    /// The first ring number that stays open, where these are all tokens.
    fn first_open(&self) -> Option<u32>
        ensures { (ks : List Role) → self.now.tokens ≡ length ks → Follows ks self.now → IsFirstOpen (reverse ks) result }
    {
        self.rings.first_open()
    }

    /// The first fault of the tokens of a text, where these are all of them; its place is a token, from 0, or the
    /// end behind them.
    pub fn fault(&self, alloc: Global, text: &[u8]) -> Result<Option<Fault>, AllocError>
        requires short { length text.now < 2 ^ 32 - 1 }
        requires follows { Follows (roles_in text.now) self.now }
        requires all { self.now.tokens ≡ length (roles_in text.now) }
        ensures { IfOk result (IsFirstFault (WrongAt (roles_in text.now))) }
    {
        if let Some(place) = self.first_misplaced() {
            return Ok(Some(Fault {
                kind: Kind::BadOrder,
                place,
            }));
        }
        if let Some(i) = self.first_unclosed(alloc, text)? {
            return Ok(Some(Fault {
                kind: Kind::ParenOpen,
                place: i as u32,
            }));
        }
        if let Some(place) = self.first_open() {
            return Ok(Some(Fault {
                kind: Kind::RingOpen,
                place,
            }));
        }
        if let Some(place) = self.faults.clash {
            return Ok(Some(Fault {
                kind: Kind::RingClash,
                place,
            }));
        }
        if let Some(place) = self.faults.pair {
            return Ok(Some(Fault {
                kind: Kind::RingPair,
                place,
            }));
        }
        Ok(None)
    }

    /// The bonds, and the neighbours of the atoms.
    pub fn into_parts(self) -> (Vec<TextBond>, AtomLists)
        ensures bonds { result.0 ≡ self.bonds }
        ensures neighbours { result.1 ≡ self.neighbours }
    {
        let Structure {
            bonds,
            tokens: _,
            count: _,
            latest: _,
            branches: _,
            neighbours,
            rings: _,
            order: _,
            faults: _,
        } = self;
        (bonds, neighbours)
    }

    pub fn bonds(&self) -> &[TextBond]
        ensures { result.now ≡ self.now.bonds.items }
    {
        self.bonds.as_slice()
    }
}
