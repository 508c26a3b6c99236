ghost use Rattle.std.specs.Prelude.{◌≤◌};

use crate::pieces::{copy_front, left_of};
use crate::taking::Taking;

/// Three inputs in memory that are given in pieces.
#[derive(Drop)]
pub struct Inputs {
    contents: Vec<Vec<u8>>,
    takings: [Taking; 3],
    piece: usize,
    ghost some: { 1 ≤ piece },
}

const UNTAKEN: Taking = Taking {
    at: 0,
    taken: 0,
    ended: false,
};

impl Inputs {
    ghost use Rattle.std.specs.Prelude.{ℕ, ◌≡◌, ◌<◌, ◌≤◌, ◌++◌, ◌==◌, false, length, take};
    ghost use Rattle.mc_io.specs.Inputs.{bytes_at};
    ghost use Rattle.mc_io.specs.InputsTaken.{left_of, taken_of, ended_of, piece_of, given_of};
    ghost use Rattle.mc_io.specs.Outside.{SameBut, counted};

    pub fn new(contents: Vec<Vec<u8>>, piece: usize) -> Inputs
        requires { 1 ≤ piece }
        ensures left { (i : ℕ) → left_of result i ≡ bytes_at contents.items i }
        ensures taken { (i : ℕ) → taken_of result i ≡ 0 }
        ensures ended { (i : ℕ) → ended_of result i ≡ false }
        ensures piece { piece_of result ≡ piece }
    {
        Inputs {
            contents,
            takings: [UNTAKEN, UNTAKEN, UNTAKEN],
            piece,
        }
    }

    /// Takes as many bytes of an input as are left, as there is room for, and as the piece allows.
    pub fn take(&mut self, input: u32, into: &mut [u8]) -> usize
        requires { input < 3 }
        ensures count { result ≡ given_of self.old input (length into.old) }
        ensures bytes { left_of self.old input ≡ take result into.new ++ left_of self.new input }
        ensures taken { taken_of self.new input ≡ counted (taken_of self.old input) result }
        ensures ended { ended_of self.new input ≡ (result == 0) }
        ensures left_others { SameBut input (left_of self.old) (left_of self.new) }
        ensures taken_others { SameBut input (taken_of self.old) (taken_of self.new) }
        ensures ended_others { SameBut input (ended_of self.old) (ended_of self.new) }
        ensures piece { piece_of self.new ≡ piece_of self.old }
    {
        let i = input as usize;
        let old = self.takings[i];
        let count = copy_front(left_of(&self.contents, i, old.at), into, self.piece);
        self.takings[i] = Taking {
            at: old.at + count,
            taken: old.taken.saturating_add(count as u128),
            ended: count == 0,
        };
        count
    }

    /// Notes a read that took nothing and gave no end.
    pub fn miss(&mut self, input: u32)
        requires { input < 3 }
        ensures ended { ended_of self.new input ≡ false }
        ensures ended_others { SameBut input (ended_of self.old) (ended_of self.new) }
        ensures left { (i : ℕ) → left_of self.new i ≡ left_of self.old i }
        ensures taken { (i : ℕ) → taken_of self.new i ≡ taken_of self.old i }
        ensures piece { piece_of self.new ≡ piece_of self.old }
    {
        self.takings[input as usize].ended = false;
    }
}
