ghost use Rattle.std.specs.Prelude.{◌≡◌, ◌≤◌, vec_len, vec_capacity};

use crate::NoMemory;
use std::alloc::Global;

/// Bytes that grow up to a room, whose memory is taken when the buffer is made.
#[derive(Drop)]
pub(crate) struct Buffer {
    pub(crate) bytes: Vec<u8>,
    pub(crate) room: u64,
    ghost within: { vec_len bytes ≤ room },
    ghost taken: { room ≤ vec_capacity bytes },
}

impl Buffer {
    ghost use Rattle.std.specs.Prelude.{[], ◌++◌, ◌+◌, ◌<◌, length, IfOk};
    ghost use Rattle.std.specs.Bool.{OnTrue, OnFalse};

    pub(crate) fn new(alloc: Global, room: u64) -> Result<Buffer, NoMemory>
        ensures empty { IfOk result (λ buffer. buffer.bytes.items ≡ []) }
        ensures room { IfOk result (λ buffer. buffer.room ≡ room) }
    {
        let bytes = Vec::with_capacity(alloc, room as usize)?;
        Ok(Buffer { bytes, room })
    }

    pub(crate) fn clear(&mut self)
        ensures bytes { self.new.bytes.items ≡ [] }
        ensures room { self.new.room ≡ self.old.room }
    {
        self.bytes.clear();
    }

    /// Adds the piece where it fits, and else nothing. Answers whether it was added.
    pub(crate) fn append(&mut self, piece: &[u8]) -> bool
        ensures fits { OnTrue result (length self.old.bytes.items + length piece.now ≤ self.old.room) }
        ensures too_long { OnFalse result (self.old.room < length self.old.bytes.items + length piece.now) }
        ensures added { OnTrue result (self.new.bytes.items ≡ self.old.bytes.items ++ piece.now) }
        ensures left { OnFalse result (self.new.bytes.items ≡ self.old.bytes.items) }
        ensures room { self.new.room ≡ self.old.room }
    {
        let fits = piece.len() as u64 <= self.room - self.bytes.len() as u64;
        if fits {
            self.bytes.extend_from_slice(piece).unwrap();
        }
        fits
    }
}
