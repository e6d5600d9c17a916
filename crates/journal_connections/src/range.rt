// Ranges of addresses.
ghost use Rattle.std.specs.Prelude.{◌≡◌, ◌≤◌, ◌<◌, ◌↔◌, IsOk, IfOk, IfErr};
ghost use Rattle.journal_connections.specs.Addresses.{width, number_of, first_bits, last_bits};
ghost use Rattle.journal_connections.specs.declared.range.NoRange.TheVariants.{TooManyBits, BitsAfter};

use std::fmt;
use std::net::{IpAddr, Ipv4Addr, Ipv6Addr};

/// A range of addresses: all of one version of IP that begin with the same bits.
#[derive(Clone, Copy)]
pub struct AddressRange {
    /// Its first address.
    pub first: IpAddr,
    /// With how many bits of that its addresses begin.
    pub bits: u32,
    ghost fits: { bits ≤ width first },
}

/// Why an address and a number of its bits are no range.
#[derive(Clone, Copy, Debug, PartialEq, Eq)]
pub enum NoRange {
    /// The address has fewer bits.
    TooManyBits,
    /// The address has a bit set after those, so it is not the first of a range.
    BitsAfter,
}

impl AddressRange {
    /// The range that begins at an address, and whose addresses begin with its first `bits` bits.
    ///
    /// # Errors
    /// - `TooManyBits`: the address has fewer bits.
    /// - `BitsAfter`: the address has a bit set after those.
    pub fn new(first: IpAddr, bits: u32) -> Result<AddressRange, NoRange>
        ensures valid { IsOk result ↔ ((bits ≤ width first) × (last_bits bits first ≡ 0)) }
        ensures value { IfOk result (λ range. (range.first ≡ first) × (range.bits ≡ bits)) }
        ensures many { IfErr result (λ why. why ≡ TooManyBits → width first < bits) }
        ensures after { IfErr result (λ why. why ≡ BitsAfter → bits ≤ width first) }
    {
        if bits > width(first) {
            return Err(NoRange::TooManyBits);
        }
        if last_bits(bits, first) != 0 {
            return Err(NoRange::BitsAfter);
        }
        Ok(AddressRange { first, bits })
    }
}

impl fmt::Display for AddressRange {
    fn fmt<W: fmt::Write>(&self, f: &mut fmt::Formatter<W>) -> fmt::Result {
        write!(f, "{}/{}", self.first, self.bits)
    }
}

// How many bits the address has.
pub(crate) fn width(address: IpAddr) -> u32
    ensures { result ≡ width address }
{
    match address {
        IpAddr::V4(_) => Ipv4Addr::BITS,
        IpAddr::V6(_) => Ipv6Addr::BITS,
    }
}

// The number that the bits of the address are.
fn number_of(address: IpAddr) -> u128
    ensures { result ≡ number_of address }
{
    match address {
        IpAddr::V4(address) => u128::from(address.to_bits()),
        IpAddr::V6(address) => address.to_bits(),
    }
}

// The number that the first bits of the address are. Without a bit it is 0.
pub(crate) fn first_bits(bits: u32, address: IpAddr) -> u128
    ensures { result ≡ first_bits bits address }
{
    let others = width(address).saturating_sub(bits);
    number_of(address).checked_shr(others).unwrap_or(0)
}

// The number that its other bits are, which are all bits of a number of 128.
fn last_bits(bits: u32, address: IpAddr) -> u128
    ensures { result ≡ last_bits bits address }
{
    let others = width(address).saturating_sub(bits);
    match 1u128.checked_shl(others) {
        Some(unit) => number_of(address) % unit,
        None => number_of(address),
    }
}
