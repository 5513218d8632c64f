//! A source that never fails, and a sink of fixed room, which takes no memory.
ghost use Rattle.std.specs.Prelude.{◌≡◌, ◌+◌, ◌≤◌, [], ◌++◌, length, take, drop, Some, vec_len};
ghost use Rattle.pq_base.specs.Outside.{PullsAtMost, PullConsumes, PullHasCause, PushesSome, PushAppends, PushHasCause};
ghost use Rattle.pq_base.specs.Memory.{TakesIntoRoom};

use crate::memory::give;
use crate::outside::{Pull, Push, Sink, Source};
use std::marker::Model;

/// A source that tells its bytes and never fails: its count of faults is the constant 0.
#[derive(Debug, Drop)]
pub struct SureSource {
    bytes: Vec<u8>,
    at: usize,
}

impl Model for SureSource {
    ghost use Rattle.std.specs.Prelude.{◌≤◌, List, ℕ, drop, vec_len};

    ghost Value = { List ℕ };

    ghost view = { λ s. drop s.at s.bytes.items };

    ghost invariant = { λ s. s.at ≤ vec_len s.bytes };
}

impl SureSource {
    /// A source of these bytes, seen as the bytes that are left.
    pub fn new(bytes: Vec<u8>) -> Self
        ensures { result ≡ bytes.items }
    {
        SureSource { bytes, at: 0 }
    }
}

impl Source for SureSource {
    ghost left = { λ s. Some s };

    ghost faults = { λ _. 0 };

    fn read(&mut self, buf: &mut [u8]) -> Pull {
        let count = buf.len().min(self.bytes.len() - self.at);
        give(&self.bytes, self.at, buf, count);
        self.at += count;
        Pull::Got(count)
    }
}

/// A sink that tells its bytes and takes as many as the room that it was handed.
#[derive(Debug, Drop)]
pub struct SureSink {
    room: Vec<u8>,
    used: usize,
    faults: u64,
}

impl Model for SureSink {
    ghost use Rattle.std.specs.Prelude.{◌≤◌, ◌-◌, take, vec_len};
    ghost use Rattle.pq_base.specs.Memory.{RoomState};

    ghost Value = { RoomState };

    ghost view = { λ s. record {
      written = take s.used s.room.items;
      room = vec_len s.room - s.used;
      faults = s.faults;
    } };

    ghost invariant = { λ s. s.used ≤ vec_len s.room };
}

impl SureSink {
    /// A sink with no bytes that takes as many as `room` has, over which it writes. Beyond them it
    /// fails.
    pub fn new(room: Vec<u8>) -> Self
        ensures { result ≡ record { written = []; room = vec_len room; faults = 0 } }
    {
        SureSink {
            room,
            used: 0,
            faults: 0,
        }
    }

    /// The bytes that were written.
    pub fn written(&self) -> &[u8]
        ensures { result.now ≡ self.now.written }
    {
        &self.room[..self.used]
    }
}

impl Sink for SureSink {
    ghost written = { λ s. Some s.written };

    ghost faults = { λ s. s.faults };

    fn write(&mut self, piece: &[u8]) -> Push
        ensures bound { PushesSome result piece.now }
        ensures bytes { PushAppends (Some self.old.written) (Some self.new.written) result
            piece.now }
        ensures cause { PushHasCause self.old.faults self.new.faults result }
        ensures call { TakesIntoRoom self.old self.new result piece.now }
    {
        let count = piece.len().min(self.room.len() - self.used);
        if count == 0 && !piece.is_empty() {
            self.faults = self.faults.saturating_add(1);
            return Push::Failed;
        }
        keep(&piece[..count], &mut self.room, self.used);
        self.used += count;
        Push::Took(count)
    }
}

// Writes the bytes over those from the place `at` on.
fn keep(bytes: &[u8], room: &mut [u8], at: usize)
    requires { at + length bytes.now ≤ length room.old }
    ensures { take (at + length bytes.now) room.new ≡ take at room.old ++ bytes.now }
{
    room[at..at + bytes.len()].copy_from_slice(bytes);
}
