// Calls of root, on the root directory.
ghost use Rattle.journal_tree.specs.Times.{IsTime};

use crate::making::{SUPERUSER, time_at};
use journal_clients::{ServiceFault, now};
use journal_history::{Naming, Session};
use journal_program::SizedDisk;
use journal_tree::{Caller, GROUPS, Handle, ROOT};
use journal_treefs::TreeStore;
use journal_treeobjects::{Asking, TreeOperation};
use journal_treerule::SoundTree;
use std::sync::Wait;
use std::time::Clock;

/// The root directory.
pub(crate) const ROOT_HANDLE: Handle = Handle {
    number: ROOT,
    generation: 1,
};

// The caller root, at this moment.
fn asking_of_root<R: Clock>(rt: &R) -> Asking
    ensures { IsTime result.now }
{
    Asking {
        caller: Caller {
            user: SUPERUSER,
            group: SUPERUSER,
            groups: [SUPERUSER; GROUPS],
        },
        now: time_at(now(rt)),
    }
}

/// Does a call of root, and does not wait until it is stable.
///
/// # Errors
/// - `Refused`: the journal refused it. It has no commit.
pub(crate) fn call_by_root<'b, J: Naming, O: TreeOperation, W: Clock + Wait>(
    rt: &W,
    store: &TreeStore<'b, SizedDisk, SoundTree, J>,
    session: &mut Session<'b, J, SoundTree>,
    operation: &O,
) -> Result<O::Reply, ServiceFault> {
    match store.run(rt, session, asking_of_root(rt), operation) {
        Ok(done) => Ok(done.reply),
        Err(why) => Err(ServiceFault::refused(why)),
    }
}
