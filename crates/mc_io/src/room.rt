ghost use Rattle.std.specs.Prelude.{◌≤◌, vec_len, vec_capacity};

use mc_base::NoMemory;
use std::alloc::Global;

/// The bytes of an output, with room for so many that is taken at once.
#[derive(Drop)]
pub struct Room {
    held: Vec<u8>,
    size: usize,
    ghost fits: { vec_len held ≤ size },
    ghost reserved: { size ≤ vec_capacity held },
}

impl Room {
    ghost use Rattle.std.specs.Prelude.{◌≡◌, ◌+◌, ◌++◌, [], IfOk, length, min, take};
    ghost use Rattle.mc_io.specs.Rooms.{held_of, room_left_of};

    pub fn new(alloc: Global, size: usize) -> Result<Room, NoMemory>
        ensures held { IfOk result (λ room. held_of room ≡ []) }
        ensures size { IfOk result (λ room. room_left_of room ≡ size) }
    {
        let held = Vec::with_capacity(alloc, size)?;
        Ok(Room { held, size })
    }

    pub fn held(&self) -> &[u8]
        ensures { result.now ≡ held_of self.now }
    {
        self.held.as_slice()
    }

    /// Adds the front of a piece, at most `most` bytes and as many as there is room for, and counts them.
    pub fn put(&mut self, piece: &[u8], most: usize) -> usize
        ensures count { result ≡ min (min (length piece.now) most) (room_left_of self.old) }
        ensures held { held_of self.new ≡ held_of self.old ++ take result piece.now }
        ensures size { room_left_of self.new + result ≡ room_left_of self.old }
    {
        let count = piece.len().min(most).min(self.size - self.held.len());
        self.held.extend_from_slice(&piece[..count]).unwrap();
        count
    }
}
