// The disk in a file becomes one of version 2.
ghost use Rattle.std.specs.Prelude.{◌≡◌, IfErr};
ghost use Rattle.jtool.specs.Programs.{status_of};

use crate::fault::Fault;
use std::alloc::Global;
use std::fs::{File, Files};
use std::io::Write;
use std::sync::Wait;

/// Makes the disk in a file one of version 2.
///
/// # Errors
/// - Those of `journal_service::migrate`.
pub fn migrate<'w, R: Files<File = File> + Wait, O: Write>(
    rt: &R,
    alloc: Global,
    path: &'w str,
    output: &mut O,
) -> Result<(), Fault<'w>>
    ensures { IfErr result (λ fault. status_of fault ≡ 1) }
{
    match journal_service::migrate(rt, alloc, path, output) {
        Ok(()) => Ok(()),
        Err(fault) => Err(Fault::of_disk(fault, path)),
    }
}
