//! A source and a sink over memory that fail at chosen calls, for tests.
ghost use Rattle.std.specs.Prelude.{◌≡◌, ◌+◌, ◌≤◌, [], ◌++◌, length, take, drop, max, false, Some, vec_len, OnOk, OnErr};
ghost use Rattle.pq_base.specs.Outside.{PullsAtMost, PullConsumes, PullHasCause, PushesSome, PushAppends, PushHasCause};
ghost use Rattle.pq_base.specs.Memory.{IsSourceCall, IsSinkCall};

use crate::outside::{Pull, Push, Sink, Source};
use std::alloc::Global;
use std::marker::Model;

/// A source that tells its bytes and fails at chosen calls.
#[derive(Debug, Drop)]
pub struct MemSource {
    bytes: Vec<u8>,
    at: usize,
    piece: usize,
    fail: Vec<u64>,
    calls: u64,
    faults: u64,
}

impl Model for MemSource {
    ghost use Rattle.std.specs.Prelude.{◌≤◌, drop, vec_len};
    ghost use Rattle.pq_base.specs.Memory.{SourceState};

    ghost Value = { SourceState };

    ghost view = { λ s. record {
      left = drop s.at s.bytes.items;
      piece = s.piece;
      fail = s.fail.items;
      calls = s.calls;
      faults = s.faults;
    } };

    ghost invariant = { λ s. (s.at ≤ vec_len s.bytes) × (1 ≤ s.piece) };
}

impl MemSource {
    /// The bytes, of which a call gives at most `piece` and at least one; the calls with a number
    /// in `fail`, counted from 1, fail.
    pub fn new(bytes: Vec<u8>, piece: usize, fail: Vec<u64>) -> Self
        ensures { result ≡ record {
          left = bytes.items;
          piece = max piece 1;
          fail = fail.items;
          calls = 0;
          faults = 0;
        } }
    {
        MemSource {
            bytes,
            at: 0,
            piece: piece.max(1),
            fail,
            calls: 0,
            faults: 0,
        }
    }
}

impl Source for MemSource {
    ghost left = { λ s. Some s.left };

    ghost faults = { λ s. s.faults };

    fn read(&mut self, buf: &mut [u8]) -> Pull
        ensures bound { PullsAtMost result buf.new }
        ensures bytes { PullConsumes (Some self.old.left) (Some self.new.left) result buf.new }
        ensures cause { PullHasCause self.old.faults self.new.faults result }
        ensures call { IsSourceCall self.old self.new result (length buf.old) }
    {
        self.calls = self.calls.saturating_add(1);
        if self.fail.contains(&self.calls) {
            self.faults = self.faults.saturating_add(1);
            return Pull::Failed;
        }
        let count = self.piece.min(buf.len()).min(self.bytes.len() - self.at);
        give(&self.bytes, self.at, buf, count);
        self.at += count;
        Pull::Got(count)
    }
}

// Copies `count` bytes from the place `at` to the beginning of the buffer.
pub(crate) fn give(from: &[u8], at: usize, buf: &mut [u8], count: usize)
    requires from { at + count ≤ length from.now }
    requires room { count ≤ length buf.old }
    ensures { drop at from.now ≡ take count buf.new ++ drop (at + count) from.now }
{
    buf[..count].copy_from_slice(&from[at..at + count]);
}

/// A sink that tells its bytes, takes each piece whole and fails at chosen calls.
#[derive(Debug, Drop)]
pub struct MemSink {
    written: Vec<u8>,
    fail: Vec<u64>,
    calls: u64,
    faults: u64,
    starved: bool,
}

impl Model for MemSink {
    ghost use Rattle.pq_base.specs.Memory.{SinkState};

    ghost Value = { SinkState };

    ghost view = { λ s. record {
      written = s.written.items;
      fail = s.fail.items;
      calls = s.calls;
      faults = s.faults;
      starved = s.starved;
    } };
}

impl MemSink {
    /// A sink with no bytes. The calls with a number in `fail`, counted from 1, fail, and so does
    /// one that finds no memory.
    pub fn new(alloc: Global, fail: Vec<u64>) -> Self
        ensures { result ≡ record {
          written = [];
          fail = fail.items;
          calls = 0;
          faults = 0;
          starved = false;
        } }
    {
        MemSink {
            written: Vec::new(alloc),
            fail,
            calls: 0,
            faults: 0,
            starved: false,
        }
    }

    /// The bytes that were written.
    pub fn written(&self) -> &[u8]
        ensures { result.now ≡ self.now.written }
    {
        &self.written
    }

    /// Whether the last write found no memory, and failed for that alone.
    pub fn is_starved(&self) -> bool
        ensures { result ≡ self.now.starved }
    {
        self.starved
    }
}

impl Sink for MemSink {
    ghost written = { λ s. Some s.written };

    ghost faults = { λ s. s.faults };

    fn write(&mut self, piece: &[u8]) -> Push
        ensures bound { PushesSome result piece.now }
        ensures bytes { PushAppends (Some self.old.written) (Some self.new.written) result
            piece.now }
        ensures cause { PushHasCause self.old.faults self.new.faults result }
        ensures call { IsSinkCall self.old self.new result piece.now }
    {
        self.calls = self.calls.saturating_add(1);
        self.starved = false;
        if self.fail.contains(&self.calls) {
            self.faults = self.faults.saturating_add(1);
            return Push::Failed;
        }
        if self.written.extend_from_slice(piece).is_err() {
            self.starved = true;
            self.faults = self.faults.saturating_add(1);
            return Push::Failed;
        }
        Push::Took(piece.len())
    }
}

#[cfg(test)]
mod tests;
