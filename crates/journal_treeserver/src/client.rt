// Clients.

/// The address of a client, without its port: one of version 6 of IP, or one of version 4 as
/// version 6 maps it (RFC 4291, section 2.5.5.2).
#[derive(Clone, Copy, Debug, PartialEq, Eq)]
pub struct ClientAddress(pub [u8; 16]);
