// The numbers of the protocol (RFC 5531).

/// The bit of a fragment's header that marks the last of a record (section 11).
pub const LAST_FRAGMENT: u32 = 1 << 31;

/// The number of bytes of a fragment's header.
pub const HEADER_BYTES: usize = 4;

/// The most bytes of a record that is read, its fragments together.
pub const RECORD_BYTES: usize = 16384;

/// The most complete records that wait. No more of a piece is taken then, so that what comes after
/// a record that was begun in another piece is lent out of its own.
pub const WAITING_RECORDS: usize = 1;

/// The version of RPC that is spoken.
pub const RPC_VERSION: u32 = 2;

/// The message type of a call (section 9).
pub const CALL: u32 = 0;

/// The message type of a reply.
pub const REPLY: u32 = 1;

/// The reply to a call that may reach its procedure.
pub const ACCEPTED: u32 = 0;

/// The reply to a call that may not.
pub const DENIED: u32 = 1;

/// A call is denied for its version of RPC.
pub const RPC_MISMATCH: u32 = 0;

/// A call is denied for its credential or its verifier.
pub const AUTH_ERROR: u32 = 1;

/// The credential cannot be read (section 9).
pub const AUTH_BADCRED: u32 = 1;

/// The flavor of a verifier that has no bytes (section 8.2).
pub const AUTH_NONE: u32 = 0;

/// The most bytes of a credential or a verifier.
pub const AUTH_BYTES: u32 = 400;

/// The result of a call that is accepted, with its number.
#[derive(Clone, Copy, Debug)]
pub enum AcceptStatus {
    Success = 0,
    ProgramUnavailable = 1,
    ProgramMismatch = 2,
    ProcedureUnavailable = 3,
    GarbageArguments = 4,
}
