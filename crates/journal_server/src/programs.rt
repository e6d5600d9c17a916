// The programs that a service answers.
ghost use Rattle.std.specs.Prelude.{◌≡◌, ℕ, List};

use crate::files::NineProcedures;
use journal_nfs3::Verifier;
use journal_world::Layout;

/// Which programs a service of a disk answers, as a protocol. A type says it and not a value, so
/// that a service of the one has no code of the other.
pub trait Programs: Sized {
    // What is told with each WRITE and COMMIT.
    ghost told: { Self → List ℕ };

    // What must hold of the number of blocks of the disk on which the calls are answered.
    ghost fits: { Self → ℕ → Type 0 };

    /// What is answered on a disk of a layout, with what is told with each WRITE and COMMIT.
    fn on(layout: Layout, verifier: Verifier) -> Self
        ensures verifier { told result ≡ verifier.0 }
        ensures layout { fits result layout.blocks };
}

impl Programs for NineProcedures {
    ghost told = { λ p. p.verifier.0 };

    ghost fits = { λ _ _. Unit {0} };

    fn on(_layout: Layout, verifier: Verifier) -> NineProcedures {
        NineProcedures { verifier }
    }
}
