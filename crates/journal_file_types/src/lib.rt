//! The values that calls on files take and answer: handles, settings, attributes, statuses,
//! portions of a file, and pending waits.
//!
//! They know no store and no journal. So the wire of a protocol, which reads and writes these
//! values, is proved beside the store and not after it.
#![tactic(auto)]

mod fault;
mod handle;
mod pending_wait;
mod portion;
mod reply;
mod settings;
mod status;

pub use fault::Fault;
pub use handle::Handle;
pub use pending_wait::{Committed, PendingWait};
pub use portion::{Portion, READ_BYTES};
pub use reply::{Attributes, Changed, Found};
pub use settings::{CreateMode, NewTime, Settings, Stability};
pub use status::{Answer, Status};
