// Sources and sinks in memory, which fail where they are told to.
ghost use Rattle.std.specs.Prelude.{◌≡◌, ◌<◌, ◌≤◌, ◌++◌, length, take, drop, Some};
ghost use Rattle.std.specs.Prelude.{Contains, IsTrue, ◌↔◌, IfOk, OnErr, IsErr};
ghost use Rattle.std.specs.Io.{ReadsAtMost};
ghost use Rattle.std.specs.Io.KnownBytes.{ReadConsumes, WriteAppends};
ghost use Rattle.join_base.specs.Bytes.{EndsAsTold, AcceptsSome};
ghost use Rattle.join_base.specs.Counts.{one_more, Rose};
ghost use Rattle.join_base.specs.States.{new_source, source_failed, source_gave, given_count};
ghost use Rattle.join_base.specs.States.{new_sink, sink_failed, sink_took, taken_count, IsToFail};

use crate::fault::Failed;
use crate::sink::Sink;
use crate::source::Source;
use chem_model::{Memory, Nums, Text};
use std::alloc::Global;
use std::marker::Model;

/// Bytes in memory as a source. Neither making it nor reading from it takes memory.
#[derive(Drop)]
pub struct MemSource {
    bytes: Text,
    // How many bytes were given.
    at: usize,
    piece: u32,
    fails: Nums,
    calls: u64,
    faults: u64,
}

impl Model for MemSource {
    ghost use Rattle.std.specs.Prelude.{◌<◌, ◌≤◌, length, drop};
    ghost use Rattle.join_base.specs.States.{SourceState};

    ghost Value = { SourceState };

    ghost view = { λ s. record {
      left = drop s.at s.bytes;
      piece = s.piece;
      fails = s.fails;
      calls = s.calls;
      faults = s.faults;
    } };

    ghost invariant = { λ s. (s.at ≤ length s.bytes) × (0 < s.piece) };
}

impl MemSource {
    /// A source of these bytes that gives at most `piece` of them a call. The calls whose numbers,
    /// from 1, are in `fails` fail.
    pub fn new(bytes: Text, piece: u32, fails: Nums) -> MemSource
        requires { 0 < piece }
        ensures { result ≡ new_source bytes piece fails }
    {
        MemSource {
            bytes,
            at: 0,
            piece,
            fails,
            calls: 0,
            faults: 0,
        }
    }
}

impl Source for MemSource {
    ghost left = { λ s. Some s.left };

    ghost faults = { λ s. s.faults };

    fn read(&mut self, buffer: &mut [u8]) -> Result<usize, Failed>
        requires { 0 < length buffer.old }
        ensures bound { ReadsAtMost result buffer.new }
        ensures bytes { ReadConsumes (Some self.old.left) (Some self.new.left) result buffer.new }
        ensures end { EndsAsTold (Some self.old.left) result }
        ensures later { self.old.faults ≤ self.new.faults }
        ensures cause { OnErr result (Rose self.old.faults self.new.faults) }

        // Only the calls that are to fail do, and nothing but the counts changes then.
        ensures fails { IsErr result ↔ Contains self.old.fails (one_more self.old.calls) }
        ensures failed { OnErr result (self.new ≡ source_failed self.old) }
        ensures untouched { OnErr result (buffer.new ≡ buffer.old) }

        // Each other call gives as many bytes as it can.
        ensures count { IfOk result (λ n. n ≡ given_count self.old (length buffer.old)) }
        ensures given { IfOk result (λ n. buffer.new ≡ take n self.old.left ++ drop n buffer.old) }
        ensures next { IfOk result (λ n. self.new ≡ source_gave n self.old) }
    {
        self.calls = self.calls.saturating_add(1);
        if is_listed(self.fails.as_slice(), self.calls) {
            self.faults = self.faults.saturating_add(1);
            return Err(Failed);
        }
        let left = &self.bytes.as_slice()[self.at..];
        let count = (self.piece as usize).min(buffer.len()).min(left.len());
        buffer[..count].copy_from_slice(&left[..count]);
        self.at += count;
        Ok(count)
    }
}

// Whether the call with this number is to fail.
fn is_listed(fails: &[u32], call: u64) -> bool
    ensures { IsTrue result ↔ Contains fails.now call }
{
    fails.iter().any(|number| u64::from(*number) == call)
}

/// Bytes in memory as a sink. Writing to it takes no memory.
#[derive(Drop)]
pub struct MemSink {
    bytes: Vec<u8>,
    room: u32,
    piece: u32,
    fails: Nums,
    calls: u64,
    faults: u64,
}

impl Model for MemSink {
    ghost use Rattle.std.specs.Prelude.{◌<◌, ◌≤◌, vec_len, vec_capacity};
    ghost use Rattle.join_base.specs.States.{SinkState};

    ghost Value = { SinkState };

    ghost view = { λ s. record {
      held = s.bytes.items;
      room = s.room;
      piece = s.piece;
      fails = s.fails;
      calls = s.calls;
      faults = s.faults;
    } };

    ghost invariant = { λ s.
        (vec_len s.bytes ≤ s.room) × (s.room ≤ vec_capacity s.bytes) × (0 < s.piece) };
}

impl MemSink {
    /// A sink that holds at most `room` bytes, takes at most `piece` of them a call, and fails in
    /// the calls whose numbers, from 1, are in `fails`. All its memory is taken here.
    pub fn new(alloc: Global, room: u32, piece: u32, fails: Nums) -> Result<MemSink, Memory>
        requires { 0 < piece }
        ensures { IfOk result (λ sink. sink ≡ new_sink room piece fails) }
    {
        Ok(MemSink {
            bytes: Vec::with_capacity(alloc, room as usize)?,
            room,
            piece,
            fails,
            calls: 0,
            faults: 0,
        })
    }

    /// What it holds.
    pub fn taken(&self) -> &[u8]
        ensures { result.now ≡ self.now.held }
    {
        self.bytes.as_slice()
    }
}

impl Sink for MemSink {
    ghost held = { λ s. Some s.held };

    ghost faults = { λ s. s.faults };

    fn write(&mut self, piece: &[u8]) -> Result<usize, Failed>
        requires { 0 < length piece.now }
        ensures some { AcceptsSome result (length piece.now) }
        ensures bytes { WriteAppends (Some self.old.held) (Some self.new.held) result piece.now }
        ensures later { self.old.faults ≤ self.new.faults }
        ensures cause { OnErr result (Rose self.old.faults self.new.faults) }

        // A call fails where it is to, and where no room is left. Only the counts change then.
        ensures fails { IsErr result ↔ IsToFail self.old }
        ensures failed { OnErr result (self.new ≡ sink_failed self.old) }

        // Each other call takes as many bytes as it can.
        ensures count { IfOk result (λ n. n ≡ taken_count self.old (length piece.now)) }
        ensures next { IfOk result (λ n. self.new ≡ sink_took n piece.now self.old) }
    {
        self.calls = self.calls.saturating_add(1);
        let left = self.room as usize - self.bytes.len();
        if left == 0 || is_listed(self.fails.as_slice(), self.calls) {
            self.faults = self.faults.saturating_add(1);
            return Err(Failed);
        }
        let count = (self.piece as usize).min(piece.len()).min(left);
        self.bytes.extend_from_slice(&piece[..count]).unwrap();
        Ok(count)
    }
}
