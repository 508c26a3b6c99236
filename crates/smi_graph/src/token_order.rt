//! Which token may stand where.

ghost use Rattle.std.specs.Prelude.{◌≡◌, List, ◌+◌, ◌^◌, ◌≤◌, ◌<◌, not, IfSome, Some, None};
ghost use Rattle.smi_graph.specs.declared.role.Role.{Role};
ghost use Rattle.smi_graph.specs.Order.{after_start, after_bond, after_enter, after_leave, after_dot, may_follow, depth_behind, is_ring, is_bond, holds_ring, is_misplaced, latest};

use crate::Role;

/// Whether a text may begin with this token, or be empty.
fn after_start(next: Option<Role>) -> bool
    ensures { result ≡ after_start next }
{
    match next {
        None | Some(Role::Atom { .. }) => true,
        Some(Role::Bond(_) | Role::Ring(_) | Role::Enter | Role::Leave | Role::Dot) => false,
    }
}

fn after_bond(next: Option<Role>) -> bool
    ensures { result ≡ after_bond next }
{
    match next {
        Some(Role::Atom { .. } | Role::Ring(_)) => true,
        None | Some(Role::Bond(_) | Role::Enter | Role::Leave | Role::Dot) => false,
    }
}

fn after_enter(next: Option<Role>) -> bool
    ensures { result ≡ after_enter next }
{
    match next {
        Some(Role::Atom { .. } | Role::Bond(_) | Role::Dot) => true,
        None | Some(Role::Ring(_) | Role::Enter | Role::Leave) => false,
    }
}

fn after_leave(next: Option<Role>) -> bool
    ensures { result ≡ after_leave next }
{
    match next {
        Some(Role::Ring(_)) => false,
        None | Some(Role::Atom { .. } | Role::Bond(_) | Role::Enter | Role::Leave | Role::Dot) =>
            true,
    }
}

fn after_dot(next: Option<Role>) -> bool
    ensures { result ≡ after_dot next }
{
    match next {
        Some(Role::Atom { .. }) => true,
        None | Some(Role::Bond(_) | Role::Ring(_) | Role::Enter | Role::Leave | Role::Dot) => false,
    }
}

/// Whether a token may stand behind another; `None` is the start, and the end.
fn may_follow(latest: Option<Role>, next: Option<Role>) -> bool
    ensures { result ≡ may_follow latest next }
{
    match latest {
        None => after_start(next),
        Some(Role::Atom { .. } | Role::Ring(_)) => true,
        Some(Role::Bond(_)) => after_bond(next),
        Some(Role::Enter) => after_enter(next),
        Some(Role::Leave) => after_leave(next),
        Some(Role::Dot) => after_dot(next),
    }
}

/// The depth behind one more token, or `None` where a `)` closes nothing.
fn depth_behind(depth: usize, role: Role) -> Option<usize>
    requires { depth < 2 ^ 32 }
    ensures depth { result ≡ depth_behind (Some depth) role }
    ensures bound { IfSome result (λ next. next ≤ depth + 1) }
{
    match role {
        Role::Atom { .. } | Role::Bond(_) | Role::Ring(_) | Role::Dot => Some(depth),
        Role::Enter => Some(depth + 1),
        Role::Leave => { if depth == 0 { None } else { Some(depth - 1) } }
    }
}

fn is_bond(role: Role) -> bool
    ensures { result ≡ is_bond role }
{
    match role {
        Role::Bond(_) => true,
        Role::Atom { .. } | Role::Ring(_) | Role::Enter | Role::Leave | Role::Dot => false,
    }
}

fn is_ring(role: Role) -> bool
    ensures { result ≡ is_ring (Some role) }
{
    match role {
        Role::Ring(_) => true,
        Role::Atom { .. } | Role::Bond(_) | Role::Enter | Role::Leave | Role::Dot => false,
    }
}

/// Whether a ring number may stand behind this token, also with a bond symbol between.
fn holds_ring(latest: Option<Role>) -> bool
    ensures { result ≡ holds_ring latest }
{
    match latest {
        Some(Role::Atom { .. } | Role::Ring(_)) => true,
        None | Some(Role::Bond(_) | Role::Enter | Role::Leave | Role::Dot) => false,
    }
}

/// What decides, beside the token before it, which token may stand next.
#[derive(Clone, Copy)]
pub struct TokenOrder {
    /// a bond symbol stands directly before, and no ring number may follow it
    stray: bool,
    depth: usize,
}

impl TokenOrder {
    ghost use Rattle.std.specs.Prelude.{◌≡◌, ◌∷◌, [], ◌^◌, ◌<◌, ◌≤◌, ◌+◌, ◌-◌, IfSome, IfNone, List, Some, None, not, true, false, ◌==◌};
    ghost use Rattle.smi_graph.specs.declared.role.Role.{Role};
    ghost use Rattle.smi_graph.specs.Order.{is_misplaced, latest};
    ghost use Rattle.smi_graph.specs.Reading.{IsBehind};

    /// At the beginning of a text.
    pub fn start() -> TokenOrder
        ensures behind { IsBehind result [] }
        ensures depth { result.depth ≡ 0 }
    {
        TokenOrder {
            stray: false,
            depth: 0,
        }
    }

    /// Behind one more token, where it may stand here, behind the latest one.
    #[inline(always)]
    pub fn behind(self, previous: Option<Role>, role: Role) -> Option<TokenOrder>
        requires { self.depth < 2 ^ 32 }
        ensures bound { IfSome result (λ next. next.depth ≤ self.depth + 1) }
        ensures placed { IfSome result (λ next. (before : List Role) → previous ≡ latest before → IsBehind self before → is_misplaced before (Some role) ≡ false) }
        ensures behind { IfSome result (λ next. (before : List Role) → previous ≡ latest before → IsBehind self before → IsBehind next (role ∷ before)) }
        ensures misplaced { IfNone result ((before : List Role) → previous ≡ latest before → IsBehind self before → is_misplaced before (Some role) ≡ true) }
    {
        if !may_follow(previous, Some(role)) || self.stray && is_ring(role) {
            return None;
        }
        match depth_behind(self.depth, role) {
            Some(depth) => Some(TokenOrder {
                stray: is_bond(role) && !holds_ring(previous),
                depth,
            }),
            None => None,
        }
    }

    /// Whether no branch is open.
    pub fn is_flat(self) -> bool
        ensures { result ≡ (self.depth == 0) }
    {
        self.depth == 0
    }
}

/// Whether a text may end behind this token.
pub fn may_end(previous: Option<Role>) -> bool
    ensures { (before : List Role) → previous ≡ latest before → is_misplaced before None ≡ not result }
{
    may_follow(previous, None)
}
