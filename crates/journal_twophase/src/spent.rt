// A transaction that was passed to a commit.

use journal_history::Naming;
use journal_memory::Transaction;
use journal_world::MapRule;

// It can only be dropped, so no body commits a transaction twice. Its memory is freed where it is
// dropped: after the memory lock.
#[derive(Drop)]
pub(crate) struct SpentTransaction<'b, J: Naming, R: MapRule> {
    _transaction: Transaction<'b, J, R>,
}

impl<'b, J: Naming, R: MapRule> SpentTransaction<'b, J, R> {
    // The transaction, of which the commit was answered.
    pub(crate) fn new(transaction: Transaction<'b, J, R>) -> SpentTransaction<'b, J, R> {
        SpentTransaction {
            _transaction: transaction,
        }
    }
}
