// The disks that a failed barrier leaves, and that a mending makes.
ghost use Rattle.std.specs.Prelude.{ℕ, List};
ghost use Rattle.journal_block.specs.Block.{Bytes};
ghost use Rattle.journal_disk.specs.Disks.{Past, IsSettled, past_from};
ghost use Rattle.journal_disk.specs.Images.{IsImage, EveryImage, LosesWrites, IsRewritten, reading};
ghost use Rattle.journal_circ.specs.Mending.{IsMendable};

/// Does nothing. Its contract is the law of the disks that a failed barrier, a kill or a crash
/// leaves, and that [`Circ::mend`](crate::Circ::mend) is given then.
pub fn prove_mending_law()
    // A disk that was made or that a crash left can be mended, and so can each settled disk.
    ensures begun { (size : ℕ) (blocks : List Bytes) → IsMendable (past_from size blocks) }
    ensures settled { (p : Past) → IsSettled p → IsMendable p }

    // A disk that could be mended still can once a barrier has failed or the process was killed,
    // and after a mending that failed.
    ensures lost { (old new : Past) → LosesWrites old new → IsMendable old → IsMendable new }
    ensures tried { (old new : Past) → IsRewritten old new → IsMendable old → IsMendable new }

    // Each image of a mended disk, its reading among them, is one that a crash might have left in
    // place of the failed barrier.
    ensures images { (old lost mended : Past) → LosesWrites old lost → IsRewritten lost mended → EveryImage mended (IsImage old) }
    ensures reading { (old lost mended : Past) → LosesWrites old lost → IsRewritten lost mended → IsImage old (reading mended) }
{}
