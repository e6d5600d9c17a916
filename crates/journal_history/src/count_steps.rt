// The kinds of step of a cell of counts: split a pass, join a pass, look, count, and raise.
ghost use Rattle.std.specs.Prelude.{◌≡◌, ◌+◌, ◌<◌, ◌≤◌, ◌++◌, ◌∷◌, [], length, slice_index, slice_set, IfOk};
ghost use Rattle.crossbeam_utils.specs.Seq.{cell_view};
ghost use Rattle.journal_history.specs.Counts.{keeper, holder, token, nobody, first, raised};

use crate::count_cell::{CountCell, CountPass, Make, Off, Raise, Spare, Touch, Verify};
use std::alloc::{AllocError, Global};
use std::sync::Wait;

/// A cell that gave no number, with its keeper.
///
/// # Errors
/// - Memory is refused. Nothing was made.
pub fn open_cell(alloc: Global) -> Result<(CountCell, CountPass), AllocError>
    ensures table { IfOk result (λ made. made.1.table_id ≡ made.0.table.shared.table_id) }
    ensures keeper { IfOk result (λ made. cell_view made.1 ≡ first) }
{
    CountCell::ruled(alloc, [0])
}

/// Gives the next number, with its token. Its count is 0.
pub fn make(cell: &CountCell, all: &mut CountPass) -> CountPass
    requires cell { all.old.table_id ≡ cell.now.table.shared.table_id }
    requires keeper { cell_view all.old ≡ keeper (cell_view all.old).counts }
    ensures table { (all.new.table_id ≡ all.old.table_id) × (result.table_id ≡ all.old.table_id) × (result.me.1 ≡ []) }
    ensures keeper { cell_view all.new ≡ keeper ((cell_view all.old).counts ++ 0 ∷ []) }
    ensures token { cell_view result ≡ token (length (cell_view all.old).counts) 0 }
{
    cell.split_pass::<Make>(all)
}

/// Makes a pass that knows nothing.
pub fn spare(cell: &CountCell, all: &mut CountPass) -> CountPass
    requires cell { all.old.table_id ≡ cell.now.table.shared.table_id }
    requires keeper { cell_view all.old ≡ keeper (cell_view all.old).counts }
    ensures table { all.new.table_id ≡ all.old.table_id }
    ensures keeper { cell_view all.new ≡ cell_view all.old }
{
    cell.split_pass::<Spare>(all)
}

/// Joins a token. It agrees with the count of its number, as a look shows.
pub fn join<W: Wait>(rt: &W, cell: &CountCell, all: &mut CountPass, one: CountPass)
    requires cell { (all.old.table_id ≡ cell.now.table.shared.table_id) × (one.table_id ≡ all.old.table_id) × (one.me.1 ≡ []) }
    requires keeper { cell_view all.old ≡ keeper (cell_view all.old).counts }
    requires token { cell_view one ≡ token (cell_view one).number (cell_view one).count }
    ensures table { all.new.table_id ≡ all.old.table_id }
    ensures both { cell_view all.new ≡ holder (cell_view all.old).counts (cell_view one).number (cell_view one).count }
    ensures agrees { ((cell_view one).count ≡ slice_index (cell_view all.old).counts (cell_view one).number) × ((cell_view one).number < length (cell_view all.old).counts) }
{
    cell.join_pass::<Off>(all, one);
    cell.load_as::<Verify, W>(rt, all);
}

/// Counts one more for the number whose token was joined, here and there.
pub fn touch<W: Wait>(rt: &W, cell: &CountCell, all: &mut CountPass)
    requires cell { all.old.table_id ≡ cell.now.table.shared.table_id }
    requires holder { cell_view all.old ≡ holder (cell_view all.old).counts (cell_view all.old).number (cell_view all.old).count }
    requires number { (cell_view all.old).number < length (cell_view all.old).counts }
    ensures table { all.new.table_id ≡ all.old.table_id }
    ensures counts { cell_view all.new ≡ holder (slice_set (cell_view all.old).counts (cell_view all.old).number ((cell_view all.old).count + 1)) (cell_view all.old).number ((cell_view all.old).count + 1) }
{
    cell.load_as::<Touch, W>(rt, all);
}

/// Splits the token off again.
pub fn split(cell: &CountCell, all: &mut CountPass) -> CountPass
    requires cell { all.old.table_id ≡ cell.now.table.shared.table_id }
    requires holder { cell_view all.old ≡ holder (cell_view all.old).counts (cell_view all.old).number (cell_view all.old).count }
    ensures table { (all.new.table_id ≡ all.old.table_id) × (result.table_id ≡ all.old.table_id) × (result.me.1 ≡ []) }
    ensures keeper { cell_view all.new ≡ keeper (cell_view all.old).counts }
    ensures token { cell_view result ≡ token (cell_view all.old).number (cell_view all.old).count }
{
    cell.split_pass::<Off>(all)
}

/// Gives all numbers below the bound, without tokens. The word of the cell carries the bound.
pub fn raise<W: Wait>(rt: &W, cell: &CountCell, all: &mut CountPass, bound: u64)
    requires cell { all.old.table_id ≡ cell.now.table.shared.table_id }
    requires keeper { cell_view all.old ≡ keeper (cell_view all.old).counts }
    ensures table { all.new.table_id ≡ all.old.table_id }
    ensures keeper { cell_view all.new ≡ keeper (raised (cell_view all.old).counts bound) }
{
    cell.swap_as::<Raise, W>(rt, all, [bound]);
}
