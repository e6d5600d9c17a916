// The words that name whose connections are served.

use journal_clients::AllowedAddresses;
use journal_commands::Fault;
use journal_connections::{AddressRange, NoRange};
use std::alloc::Global;
use std::net::IpAddr;

// The sign between the address and the number of bits of a range.
const SEPARATOR: char = '/';

/// The addresses that the words allow, each a range like `10.0.0.0/8`, or all without words.
///
/// # Errors
/// The first of these that applies.
/// - `NoRange`: a word is no address with a number of its bits.
/// - `BitsAfterRange`: the address of a word has other bits set than those.
/// - `NoMemory`: memory is refused.
pub fn allowed_addresses<'w>(
    alloc: Global,
    words: Option<&[&'w str]>,
) -> Result<AllowedAddresses, Fault<'w>> {
    let Some(words) = words else {
        return Ok(AllowedAddresses::All);
    };
    let mut ranges = Vec::new(alloc);
    for word in words.iter() {
        let range = parse_range(word)?;
        if ranges.push(range).is_err() {
            return Err(Fault::NoMemory);
        }
    }
    Ok(AllowedAddresses::Of(ranges))
}

// The range that the word names.
fn parse_range<'w>(text: &'w str) -> Result<AddressRange, Fault<'w>> {
    let Some((first, bits)) = parse_parts(text) else {
        return Err(Fault::NoRange { text });
    };
    match AddressRange::new(first, bits) {
        Ok(range) => Ok(range),
        Err(NoRange::TooManyBits) => Err(Fault::NoRange { text }),
        Err(NoRange::BitsAfter) => Err(Fault::BitsAfterRange { text }),
    }
}

// The address and the number that the word names. An address of version 4 of IP that is written as
// one of version 6 is none here, because its clients have the address of version 4.
fn parse_parts(text: &str) -> Option<(IpAddr, u32)> {
    let (first, bits) = text.split_once(SEPARATOR)?;
    let first: IpAddr = first.parse().ok()?;
    if first.to_canonical() != first {
        return None;
    }
    Some((first, parse_bits(bits)?))
}

// A number in decimal digits alone, without a sign.
fn parse_bits(text: &str) -> Option<u32> {
    if text.bytes().all(|byte| byte.is_ascii_digit()) {
        text.parse().ok()
    } else {
        None
    }
}
