// Numbers in decimal.
ghost use Rattle.std.specs.Prelude.{◌≡◌, ◌≢◌, ℕ, ◌<◌, ◌^◌, IfSome, IfNone};
ghost use Rattle.std.specs.Fmt.{decimal};
ghost use Rattle.journal_command.specs.Numbers.{is_padded as begins_padded};

use std::str;

/// The number that the text is in decimal, without leading zeros and below 2^32.
pub fn read_number(text: &[u8]) -> Option<u32>
    ensures found { IfSome result (λ n. (n < 2 ^ 32) × (text.now ≡ decimal n)) }
    ensures none { IfNone result ((n : ℕ) → n < 2 ^ 32 → text.now ≢ decimal n) }
{
    if is_padded(text) {
        return None;
    }
    str::from_utf8(text).ok()?.parse().ok()
}

/// The number of a port that the text is, as `read_number` reads it.
pub fn read_port(text: &[u8]) -> Option<u16>
    ensures found { IfSome result (λ n. (n < 2 ^ 16) × (text.now ≡ decimal n)) }
    ensures none { IfNone result ((n : ℕ) → n < 2 ^ 16 → text.now ≢ decimal n) }
{
    if is_padded(text) {
        return None;
    }
    str::from_utf8(text).ok()?.parse().ok()
}

// True if the text begins with a sign, or with a zero before other digits: `parse` would take
// these.
fn is_padded(text: &[u8]) -> bool
    ensures { result ≡ begins_padded text.now }
{
    match text {
        [b'+', ..] => true,
        [b'0', ..] => text.len() > 1,
        _ => false,
    }
}
