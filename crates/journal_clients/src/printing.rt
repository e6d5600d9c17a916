// Lines are printed.

use crate::fault::ServiceFault;
use journal_program::Settled;
use std::io::Write;

/// Prints a line for whoever waits for it.
///
/// # Errors
/// - `CannotWrite`: the output failed.
pub fn print_line<O: Write>(output: &mut O, word: &str, number: u64) -> Result<(), ServiceFault> {
    match writeln!(output, "{word} {number}").and_then(|()| output.flush()) {
        Ok(()) => Ok(()),
        Err(_) => Err(ServiceFault::CannotWrite),
    }
}

/// Gives the disk up, and prints a line. Whoever reads it may use the file at once.
///
/// # Errors
/// - `CannotWrite`: the output failed. The disk is given up then too.
pub fn give_up<O: Write>(
    disk: Settled,
    output: &mut O,
    word: &str,
    number: u64,
) -> Result<(), ServiceFault> {
    drop(disk);
    print_line(output, word, number)
}
