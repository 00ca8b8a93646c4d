// How many members may be faulty, and the quorum.
ghost use Rattle.std.specs.Prelude.{◌≡◌};
ghost use Rattle.rolls.specs.Quorum.{quorum as quorum_of};

/// Fewer than a third (`N3f1`) or a fifth (`N5f1`) of the members may be faulty; the number is the divisor.
#[derive(Clone, Copy, PartialEq, Eq)]
pub enum Faults {
    N3f1 = 3,
    N5f1 = 5,
}

impl Faults {
    /// How many of the members make a quorum.
    pub fn quorum(self, members: u32) -> u32
        ensures { result ≡ quorum_of self members }
    {
        members - members.saturating_sub(1) / self as u32
    }
}
