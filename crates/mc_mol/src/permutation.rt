ghost use Rattle.std.specs.Prelude.{◌≡◌, ◌+◌, ◌≤◌, ◌<◌, [], ◌∷◌, Some, None, IfSome, false, true, IsSome, IsNone, ◌↔◌, length, nat_lt, count_by, position};
ghost use Rattle.std.specs.List.{list_all, list_any};
ghost use Rattle.mc_mol.specs.Permutations.{same_slot, inversions, is_even_permutation, place_in, stands_in, AllDifferent};

use crate::Slot;

/// Whether `q` is an even permutation of `p`, two lists of four different places each; none where
/// it is no permutation of it.
pub fn parity(p: &[Slot; 4], q: &[Slot; 4]) -> Option<bool>
    requires p { AllDifferent p.now }
    requires q { AllDifferent q.now }
    ensures permutation { IsSome result ↔ (list_all (λ slot. stands_in p.now slot) q.now ≡ true) }
    ensures none { IsNone result ↔ (list_all (λ slot. stands_in p.now slot) q.now ≡ false) }
    ensures even { IfSome result (λ even. even ≡ is_even_permutation p.now q.now) }
{
    if !all_stand_in(p, q) {
        return None;
    }
    Some(is_even_permutation(p, q))
}

/// Whether one list of places, as a permutation of the other, has an even number of inversions. Unlike
/// `parity` it may be asked of any two lists.
pub fn is_even_permutation(p: &[Slot; 4], q: &[Slot; 4]) -> bool
    ensures { result ≡ is_even_permutation p.now q.now }
{
    let first = place_in(p, q[0]);
    let second = place_in(p, q[1]);
    let third = place_in(p, q[2]);
    let fourth = place_in(p, q[3]);
    inversions(first, second, third, fourth) % 2 == 0
}

/// Whether a slot is one of a list.
fn stands_in(places: &[Slot; 4], slot: Slot) -> bool
    ensures { result ≡ stands_in places.now slot }
{
    places.iter().any(|place| is_same(slot, *place))
}

/// Whether each slot of one list is one of the other.
fn all_stand_in(places: &[Slot; 4], slots: &[Slot; 4]) -> bool
    ensures { result ≡ list_all (λ slot. stands_in places.now slot) slots.now }
{
    slots.iter().all(|slot| stands_in(places, *slot))
}

/// The place of a slot in a list, and past its end where it isn't there.
fn place_in(places: &[Slot; 4], slot: Slot) -> usize
    ensures { result ≡ place_in places.now slot }
{
    position_in(places, slot).unwrap_or(places.len())
}

/// The place of a slot in a list, if it is there.
fn position_in(places: &[Slot; 4], slot: Slot) -> Option<usize>
    ensures { result ≡ position (same_slot slot) places.now }
{
    places.iter().position(|place| is_same(slot, *place))
}

fn is_same(first: Slot, second: Slot) -> bool
    ensures { result ≡ same_slot first second }
{
    match (first, second) {
        (Slot::At(a), Slot::At(b)) => a.0 == b.0,
        (Slot::Rest, Slot::Rest) => true,
        (Slot::At(_), Slot::Rest) => false,
        (Slot::Rest, Slot::At(_)) => false,
    }
}

/// The number of pairs in which a greater number stands before a lesser one.
fn inversions(first: usize, second: usize, third: usize, fourth: usize) -> usize
    ensures { result ≡ inversions (first ∷ second ∷ third ∷ fourth ∷ []) }
{
    less_than(first, &[second, third, fourth])
        + less_than(second, &[third, fourth])
        + less_than(third, &[fourth])
}

/// How many of the numbers are less than this one.
fn less_than(number: usize, others: &[usize]) -> usize
    ensures value { result ≡ count_by (λ other. nat_lt other number) others.now }
    ensures few { result ≤ length others.now }
{
    others.iter().filter(|other| **other < number).count()
}
