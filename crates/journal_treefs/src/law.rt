// Laws of the calls, for all of them.
ghost use Rattle.std.specs.Prelude.{ℕ, ◌≤◌};
ghost use Rattle.journal_tail.specs.declared.limits.TheConstants.{MAX_UPDATES};
ghost use Rattle.journal_tree.specs.declared.limits.TheConstants.{TRANSFER_BYTES};
ghost use Rattle.journal_treecalls.specs.Counts.{most_written};

/// A transaction has room for all that a WRITE of at most `TRANSFER_BYTES` bytes writes. Each other
/// call makes at most 11 writes (`TreeOperation::most`).
pub fn a_transfer_fits_a_transaction()
    ensures { (count : ℕ) → count ≤ TRANSFER_BYTES → most_written count ≤ MAX_UPDATES }
{}
