// Where bytes come from.
ghost use Rattle.std.specs.Prelude.{◌≡◌, ℕ, ◌+◌, ◌<◌, ◌≤◌, List, Option, length, IfOk, OnOk, OnErr};
ghost use Rattle.std.specs.Io.{ReadsAtMost};
ghost use Rattle.std.specs.Io.KnownBytes.{ReadConsumes, Consumes, IsAtEnd};
ghost use Rattle.join_base.specs.Bytes.{EndsAsTold, TakesCount, TakesAtMost};
ghost use Rattle.join_base.specs.Counts.{Rose};

use crate::fault::{Failed, ReadEnd};
use chem_model::{Items, Text};
use std::alloc::Global;

// How many bytes are asked for in one read.
const ASKED: usize = 1024;

/// Gives bytes, piece by piece.
pub trait Source {
    /// The bytes that are left, where the source tells them.
    ghost left: { Self → Option (List ℕ) };

    /// How often it failed.
    ghost faults: { Self → ℕ };

    /// Puts the next bytes into the buffer and answers how many these are. At 0 the input is at its
    /// end.
    fn read(&mut self, buffer: &mut [u8]) -> Result<usize, Failed>
        requires { 0 < length buffer.old }
        ensures bound { ReadsAtMost result buffer.new }
        ensures bytes { ReadConsumes (left self.old) (left self.new) result buffer.new }
        ensures end { EndsAsTold (left self.old) result }

        // The count never falls, and a call fails only where it rose.
        ensures later { faults self.old ≤ faults self.new }
        ensures cause { OnErr result (Rose (faults self.old) (faults self.new)) };
}

/// Reads to the end. A text with more than `limit` bytes is `TooLong`, as soon as one byte more was
/// taken. The source has lost what was taken, also where no text comes of it.
pub fn read_all<S: Source>(alloc: Global, source: &mut S, limit: u32) -> Result<Text, ReadEnd>
    requires { limit ≤ 134217728 }
    ensures all { IfOk result (λ text. Consumes (S.left source.old) (S.left source.new) text) }
    ensures end { OnOk result (IsAtEnd (S.left source.new)) }
    ensures short { IfOk result (λ text. length text ≤ limit) }

    // `TooLong` comes after one byte more than the limit, and each other refusal before that.
    ensures too_long { result ≡ Err ReadEnd.TooLong →
        TakesCount (S.left source.old) (S.left source.new) (limit + 1) }
    ensures read_fault { result ≡ Err ReadEnd.ReadFault →
        TakesAtMost (S.left source.old) (S.left source.new) limit }
    ensures memory { result ≡ Err ReadEnd.Memory →
        TakesAtMost (S.left source.old) (S.left source.new) limit }

    ensures later { S.faults source.old ≤ S.faults source.new }
    ensures cause { result ≡ Err ReadEnd.ReadFault →
        Rose (S.faults source.old) (S.faults source.new) }
{
    let most = limit as usize;
    let mut text = Vec::new(alloc);
    let mut buffer = [0u8; ASKED];
    'reading: loop {
        let room = most + 1 - text.len();
        match source.read(&mut buffer[..room.min(ASKED)]) {
            Err(Failed) => return Err(ReadEnd::ReadFault),
            Ok(0) => return Ok(Items::from_vec(text)),
            Ok(count) if count == room => return Err(ReadEnd::TooLong),
            Ok(count) => text.extend_from_slice(&buffer[..count])?,
        }
    }
}
