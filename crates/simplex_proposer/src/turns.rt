//! How long a proposal may take.
ghost use Rattle.std.specs.Prelude.{◌≡◌, ◌<◌, ◌-◌, ◌↔◌, IsTrue};

/// How many turns of iteration a proposal takes at most.
pub(crate) const MOST_TURNS: u32 = 10_000;

/// The turns that a proposal has left.
#[derive(Debug, Drop)]
pub(crate) struct Turns {
    left: u32,
}

impl Turns {
    /// All of them.
    pub(crate) fn new() -> Turns
        ensures { result.left ≡ MOST_TURNS }
    {
        Turns { left: MOST_TURNS }
    }

    /// Takes one, if any is left.
    pub(crate) fn take(&mut self) -> bool
        ensures taken { IsTrue result ↔ (0 < self.old.left) }
        ensures left { self.new.left ≡ self.old.left - 1 }
    {
        if self.left == 0 {
            return false;
        }
        self.left -= 1;
        true
    }
}
