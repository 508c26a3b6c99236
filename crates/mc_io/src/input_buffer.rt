ghost use Rattle.std.specs.Prelude.{◌≡◌, ◌<◌, ◌≤◌, ◌+◌, ◌-◌, OnOk, length, max, slice_range, take};
ghost use Rattle.mc_io.specs.Buffered.{Puts, most_read};
ghost use Rattle.mc_io.specs.Outside.{SameBut};

use crate::Source;
use crate::read_stop::ReadStop;
use mc_base::{Failed, NoMemory};
use std::alloc::Global;
use std::marker::Model;

/// The most bytes of one read.
const PIECE: usize = 65_536;

/// The bytes of an input that were read and aren't passed, in one buffer.
#[derive(Drop)]
pub struct InputBuffer {
    input: u32,
    bytes: Vec<u8>,
    held_from: usize,
    held_to: usize,
    taken: u128,
    ended: bool,
}

impl Model for InputBuffer {
    ghost use Rattle.std.specs.Prelude.{length, slice_range};
    ghost use Rattle.mc_io.specs.Buffered.{Buffered, IsInOrder};

    ghost Value = { Buffered };

    ghost view = { λ b. record { input = b.input; held = slice_range b.bytes.items b.held_from b.held_to; taken = b.taken; ended = b.ended; room = length b.bytes.items } };

    ghost invariant = { λ b. IsInOrder b.input b.held_from b.held_to (length b.bytes.items) };
}

impl InputBuffer {
    ghost use Rattle.std.specs.Prelude.{◌≡◌, ◌+◌, ◌<◌, ◌≤◌, ◌^◌, false, Err, OnOk, length, drop, max};
    ghost use Rattle.mc_io.specs.Buffered.{Reads, fresh_buffer, most_read};
    ghost use Rattle.mc_io.specs.Outside.{GaveNone, SameBut};

    /// A buffer of an input of which nothing has been read.
    pub fn new(alloc: Global, input: u32) -> InputBuffer
        requires { input < 3 }
        ensures { result ≡ fresh_buffer input }
    {
        InputBuffer {
            input,
            bytes: Vec::new(alloc),
            held_from: 0,
            held_to: 0,
            taken: 0,
            ended: false,
        }
    }

    /// The bytes that were read and aren't passed.
    pub fn held(&self) -> &[u8]
        ensures { result.now ≡ self.now.held }
    {
        &self.bytes[self.held_from..self.held_to]
    }

    /// Whether the end was read.
    pub fn has_ended(&self) -> bool
        ensures { result ≡ self.now.ended }
    {
        self.ended
    }

    /// Passes bytes at the front of those that are held.
    pub fn pass(&mut self, count: usize)
        requires { count ≤ length self.old.held }
        ensures { self.new ≡ record self.old { held = drop count self.old.held } }
    {
        self.held_from += count;
    }

    /// Reads once, and puts what was read behind what is held.
    pub fn read_more<S: Source>(&mut self, source: &mut S) -> Result<(), ReadStop>
        requires small { self.old.taken < 2 ^ 64 }
        requires going { self.old.ended ≡ false }

        ensures read { OnOk result (Reads self.old self.new (S.inputs source.old self.old.input) (S.inputs source.new self.old.input)) }
        ensures within { OnOk result (self.old.taken ≤ S.LIMIT → self.new.taken ≤ S.LIMIT) }
        ensures small { OnOk result (self.new.taken < 2 ^ 64) }
        ensures going { OnOk result (self.new.ended ≡ false → self.new.taken ≤ S.LIMIT) }
        ensures past { result ≡ Err ReadStop.InputLimit → Reads self.old self.new (S.inputs source.old self.old.input) (S.inputs source.new self.old.input) × (S.LIMIT < self.new.taken) × (self.new.ended ≡ false) }
        ensures missed { result ≡ Err ReadStop.ReadFault → (self.new ≡ record self.old { room = self.new.room }) × GaveNone (S.inputs source.old self.old.input) (S.inputs source.new self.old.input) }
        ensures unread { result ≡ Err ReadStop.NoMemory → (self.new ≡ record self.old { room = self.new.room }) × (S.inputs source.new ≡ S.inputs source.old) }
        ensures room { self.new.room ≤ max self.old.room (length self.old.held + most_read) }
        ensures others { SameBut self.old.input (S.inputs source.old) (S.inputs source.new) }
    {
        let held = self.held_to - self.held_from;
        move_to_front(&mut self.bytes, self.held_from, self.held_to);
        self.held_from = 0;
        self.held_to = held;
        if make_room(&mut self.bytes, held).is_err() {
            return Err(ReadStop::NoMemory);
        }
        match read_at(source, self.input, &mut self.bytes, held) {
            Err(_) => Err(ReadStop::ReadFault),
            Ok(0) => {
                self.ended = true;
                Ok(())
            }
            Ok(count) => {
                self.held_to += count;
                self.taken += count as u128;
                if self.taken > S::LIMIT as u128 {
                    return Err(ReadStop::InputLimit);
                }
                Ok(())
            }
        }
    }
}

/// Moves a part of a buffer to its front. A byte is moved at most once where reads are asked for only within a line,
/// since from then on it stands at the front until its line is passed.
fn move_to_front(bytes: &mut Vec<u8>, from: usize, to: usize)
    requires order { from ≤ to }
    requires within { to ≤ length bytes.old.items }
    ensures moved { take (to - from) bytes.new.items ≡ slice_range bytes.old.items from to }
    ensures size { length bytes.new.items ≡ length bytes.old.items }
{
    if from > 0 {
        bytes.copy_within(from..to, 0);
    }
}

/// Takes room for a read from a place on, where there is none.
fn make_room(bytes: &mut Vec<u8>, at: usize) -> Result<(), NoMemory>
    requires within { at ≤ length bytes.old.items }
    ensures front { take at bytes.new.items ≡ take at bytes.old.items }
    ensures size { length bytes.old.items ≤ length bytes.new.items }
    ensures room { length bytes.new.items ≤ max (length bytes.old.items) (at + most_read) }
    ensures some { OnOk result (at < length bytes.new.items) }
{
    if at == bytes.len() {
        bytes.resize(at + PIECE, 0)?;
    }
    Ok(())
}

/// Reads once into a buffer from a place on. What stands before that place stays.
fn read_at<S: Source>(
    source: &mut S,
    input: u32,
    bytes: &mut Vec<u8>,
    at: usize,
) -> Result<usize, Failed>
    requires input { input < 3 }
    requires room { at < length bytes.old.items }
    ensures puts { Puts at bytes.old.items bytes.new.items (S.inputs source.old input) (S.inputs source.new input) result }
    ensures others { SameBut input (S.inputs source.old) (S.inputs source.new) }
{
    let end = bytes.len().min(at.saturating_add(PIECE));
    source.read(input, &mut bytes[at..end])
}
