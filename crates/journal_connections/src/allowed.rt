// The addresses whose clients are served.
ghost use Rattle.std.specs.Prelude.{◌≡◌};
ghost use Rattle.journal_connections.specs.Ranges.{has, allows, allows_peer};

use crate::range::{AddressRange, first_bits, width};
use std::fmt;
use std::net::IpAddr;

// The text between two ranges.
const SEPARATOR: &str = ", ";

/// The addresses whose clients are served.
#[derive(Clone, Drop)]
pub enum AllowedAddresses {
    /// All.
    All,
    /// Those of these ranges.
    Of(Vec<AddressRange>),
}

impl AllowedAddresses {
    /// True if clients of the address are served.
    pub fn allows(&self, address: IpAddr) -> bool
        ensures ranges { result ≡ allows self.now address }
    {
        match self {
            AllowedAddresses::All => true,
            AllowedAddresses::Of(ranges) => ranges.iter().any(|range| range.has(address)),
        }
    }

    // True if a peer is served that has this address, or none.
    pub(crate) fn allows_peer(&self, peer: Option<IpAddr>) -> bool
        ensures { result ≡ allows_peer self.now peer }
    {
        match peer {
            Some(address) => self.allows(address),
            None => true,
        }
    }
}

impl fmt::Display for AllowedAddresses {
    fn fmt<W: fmt::Write>(&self, f: &mut fmt::Formatter<W>) -> fmt::Result {
        let AllowedAddresses::Of(ranges) = self else {
            return f.write_str("all addresses");
        };
        let mut separator = "";
        for range in ranges.iter() {
            write!(f, "{separator}{range}")?;
            separator = SEPARATOR;
        }
        Ok(())
    }
}

impl AddressRange {
    /// True if the range has the address.
    pub fn has(&self, address: IpAddr) -> bool
        ensures { result ≡ has self.now address }
    {
        let bits = self.bits;
        width(address) == width(self.first)
            && first_bits(bits, address) == first_bits(bits, self.first)
    }
}
