// The clock by which calls are answered.

use journal_world::Moment;

/// The clock by which calls are answered.
pub trait Clock {
    ghost use Rattle.std.specs.Prelude.{⊤};
    ghost use Rattle.journal_inode.specs.declared.node.Time.{Time};
    ghost use Rattle.journal_protocol.specs.Moments.{time_of};

    /// Which moments it may have.
    ghost tells: { Self → Time → Type 0 } = { λ _ _. ⊤ };

    /// The moment now.
    fn now(&self) -> Moment
        ensures { tells self.now (time_of result) };

    // There is one that it may have.
    ghost some_moment: { (c : Self) → (moment : Time) × tells c moment };
}
