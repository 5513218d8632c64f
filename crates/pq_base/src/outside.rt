//! Where bytes come from and go to, and what a test may hold a worker by.
ghost use Rattle.std.specs.Prelude.{ℕ, List, Option};
ghost use Rattle.pq_base.specs.Outside.{PullsAtMost, PullConsumes, PullHasCause, PushesSome, PushAppends, PushHasCause};

/// What a read of a source gave.
#[derive(Clone, Copy, Debug, PartialEq, Eq)]
pub enum Pull {
    /// So many bytes at the beginning of the buffer; 0 in a buffer with room is the end of the input.
    Got(usize),
    /// No byte, and one more fault is counted.
    Failed,
}

/// Where a program reads its input.
pub trait Source {
    /// The bytes that are left, if the source tells them.
    ghost left: { Self → Option (List ℕ) };

    /// How often it has failed, a number that never falls.
    ghost faults: { Self → ℕ };

    /// Moves the next bytes into the buffer.
    fn read(&mut self, buf: &mut [u8]) -> Pull
        ensures bound { PullsAtMost result buf.new }
        ensures bytes { PullConsumes (left self.old) (left self.new) result buf.new }
        ensures cause { PullHasCause (faults self.old) (faults self.new) result };
}

/// What a write to a sink took.
#[derive(Clone, Copy, Debug, PartialEq, Eq)]
pub enum Push {
    /// So many of the first bytes of the piece, at least one if it has any.
    Took(usize),
    /// No byte, and one more fault is counted.
    Failed,
}

/// Where a program writes its output.
pub trait Sink {
    /// The bytes that were written, if the sink tells them.
    ghost written: { Self → Option (List ℕ) };

    /// How often it has failed, a number that never falls.
    ghost faults: { Self → ℕ };

    /// Takes some of the first bytes of the piece.
    fn write(&mut self, piece: &[u8]) -> Push
        ensures bound { PushesSome result piece.now }
        ensures bytes { PushAppends (written self.old) (written self.new) result piece.now }
        ensures cause { PushHasCause (faults self.old) (faults self.new) result };
}

/// The moments of a worker's turn at which a gate may hold it.
#[derive(Clone, Copy, Debug, PartialEq, Eq)]
pub enum GatePoint {
    /// The worker begins its round.
    Start,
    /// It has drawn a node.
    Took,
    /// It has recorded the node.
    Done,
}

/// What a test holds a worker by. It changes nothing that a contract sees.
pub trait Gate {
    fn at(&self, worker: u32, point: GatePoint);
}
