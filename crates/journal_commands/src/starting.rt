// How a program begins.

use crate::fault::Fault;
use std::env;
use std::env::Env;
use std::io::{BufWriter, Write};

/// The words of the command line without the program's name, and the output with a buffer.
///
/// # Errors
/// - `NoMemory`: memory is refused.
/// - `NoCommand`: a word is no text.
pub fn start<R: Env + AllocGlobal, O: Write + Drop>(
    rt: &R,
    output: O,
) -> Result<(Vec<String>, BufWriter<O>), Fault<'static>> {
    let words = env::args(rt)?.skip(1).collect(rt.alloc())?;
    let output = BufWriter::new(rt.alloc(), output)?;
    Ok((words, output))
}
