// The names of files.
ghost use Rattle.std.specs.Prelude.{◌≡◌, ◌<◌, ◌≤◌, ◌-◌, true, IfSome};
ghost use Rattle.journal_inode.specs.declared.place.TheConstants.{INODES};
ghost use Rattle.journal_filestore.specs.Files.{is_file_number};
ghost use Rattle.journal_filestore.specs.Operations.{number_of_name};

use journal_inode::INODES;

// The number of a name: f and three decimal digits.
pub(crate) fn number_of(name: &[u8]) -> Option<u32>
    ensures value { result ≡ number_of_name name.now }
    ensures number { IfSome result (λ i. is_file_number i ≡ true) }
    ensures range { IfSome result (λ i. i < INODES) }
{
    let [b'f', hundreds, tens, ones] = name else {
        return None;
    };
    if !hundreds.is_ascii_digit() || !tens.is_ascii_digit() || !ones.is_ascii_digit() {
        return None;
    }
    let number = digit(*hundreds) * 100 + digit(*tens) * 10 + digit(*ones);
    if number < 2 || number >= INODES {
        return None;
    }
    Some(number)
}

// The number of a digit.
fn digit(byte: u8) -> u32
    requires low { 48 ≤ byte }
    requires high { byte ≤ 57 }
    ensures value { result ≡ byte - 48 }
    ensures small { result ≤ 9 }
{
    u32::from(byte - b'0')
}
