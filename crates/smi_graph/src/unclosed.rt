//! Branches that are never closed.

ghost use Rattle.std.specs.Prelude.{◌≡◌, ℕ, Bool, ◌+◌, ◌^◌, ◌≤◌, ◌<◌, ◌&&◌, nat_le, length, Some};
ghost use Rattle.smi_graph.specs.Order.{is_enter, unclosed_at};
ghost use Rattle.smi_graph.specs.Firsts.{IsFirstOf, IsFirstFrom, unmatched_with};

use crate::Role;

/// The `)` among some tokens that close a branch which was open before them, with one more token in front.
fn unmatched_with(role: Role, unmatched: usize) -> usize
    requires { unmatched < 2 ^ 32 }
    ensures value { result ≡ unmatched_with role unmatched }
    ensures bound { result ≤ unmatched + 1 }
{
    match role {
        Role::Leave => unmatched + 1,
        Role::Enter => unmatched.saturating_sub(1),
        Role::Atom { .. } | Role::Bond(_) | Role::Ring(_) | Role::Dot => unmatched,
    }
}

/// Whether a token is a `(` that no `)` behind it closes.
fn is_unclosed(role: Role, unmatched: usize) -> bool
    ensures { result ≡ is_enter (Some role) && nat_le unmatched 0 }
{
    match role {
        Role::Enter => unmatched == 0,
        Role::Atom { .. } | Role::Bond(_) | Role::Ring(_) | Role::Leave | Role::Dot => false,
    }
}

/// The first place that passes, with one more place in front.
fn earlier(first: Option<usize>, holds: bool, i: usize) -> Option<usize>
    ensures { (p : ℕ → Bool) (n : ℕ) → i < n → IsFirstFrom p (i + 1) n first → p i ≡ holds → IsFirstFrom p i n result }
{
    if holds { Some(i) } else { first }
}

/// The first `(` that is never closed: going back, each `(` is closed by the nearest `)` that closes nothing yet.
pub fn first_unclosed(roles: &[Role]) -> Option<usize>
    requires { length roles.now < 2 ^ 32 }
    ensures { IsFirstOf (unclosed_at roles.now) (length roles.now) result }
{
    let mut first = None;
    let mut unmatched = 0usize;
    let mut i = roles.len();
    while i > 0 {
        i -= 1;
        first = earlier(first, is_unclosed(roles[i], unmatched), i);
        unmatched = unmatched_with(roles[i], unmatched);
    }
    first
}
