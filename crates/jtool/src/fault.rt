// How the program ends.
ghost use Rattle.std.specs.Prelude.{◌≡◌};
ghost use Rattle.jtool.specs.Programs.{status_of};

use journal_command::AskFault;
use journal_program::{DeviceFault, LabelFault};
use journal_script::ScriptFault;
use journal_service::ServiceFault;
use journal_world::Refusal;
use std::alloc::AllocError;
use std::io;
use std::io::{ErrorKind, Write};

const USAGE: &str =
    "usage: jtool script N | jtool format FILE N | jtool serve FILE PORT K | jtool check FILE | jtool migrate FILE";

/// Why the program does not end well.
#[derive(Drop)]
pub enum Fault<'w> {
    /// The words are not a command of the program.
    Usage,
    /// No disk has so many blocks.
    BadSize,
    /// Some line was bad, as its answer said.
    BadLine,
    /// The file at this path could not be made, opened, read to its end, or made stable.
    BadFile(&'w str),
    /// The label of the disk in the file at this path is not that of the file.
    Label(&'w str, LabelFault),
    /// The node at this path cannot be used as a block device, or a disk is in no such file.
    Device(&'w str, DeviceFault),
    /// The port is not to be had, or the system refused a connection.
    CannotListen,
    /// A call before the first line was refused, or a need of the service, or the close.
    Refused(Refusal<()>),
    /// Standard input failed.
    CannotRead,
    /// Standard output failed.
    CannotWrite,
}

impl<'w> Fault<'w> {
    /// Why the disk in the file at the path was not made, not served, or is not sound.
    pub fn of_disk(fault: ServiceFault, path: &'w str) -> Fault<'w>
        ensures { status_of result ≡ 1 }
    {
        match fault {
            ServiceFault::File(_) => Fault::BadFile(path),
            ServiceFault::Label(why) => Fault::Label(path, why),
            ServiceFault::Device(why) => Fault::Device(path, why),
            ServiceFault::CannotListen => Fault::CannotListen,
            ServiceFault::Refused(why) => Fault::Refused(why),
            ServiceFault::DeviceFailed(_) => Fault::Refused(Refusal::DeviceFailed(())),
            ServiceFault::CannotWrite => Fault::CannotWrite,
        }
    }

    /// Prints the fault, and answers the program's status.
    pub fn report<W: Write>(&self, faults: &mut W) -> u8
        ensures { result ≡ status_of self.now }
    {
        // Where even this cannot be printed, the status is all that is left to say.
        let _ = self.print(faults);
        match self {
            Fault::Usage | Fault::BadSize | Fault::BadLine => 2,
            Fault::BadFile(_)
            | Fault::Label(_, _)
            | Fault::Device(_, _)
            | Fault::CannotListen
            | Fault::Refused(_)
            | Fault::CannotRead
            | Fault::CannotWrite => 1,
        }
    }

    fn print<W: Write>(&self, faults: &mut W) -> io::Result<()> {
        match self {
            Fault::Usage => writeln!(faults, "{USAGE}"),
            Fault::BadSize => writeln!(faults, "bad size"),
            Fault::BadLine => Ok(()),
            Fault::BadFile(path) => writeln!(faults, "cannot use {path}"),
            Fault::Label(path, why) => writeln!(faults, "{path} {why}"),
            Fault::Device(path, why) => writeln!(faults, "{path} {why}"),
            Fault::CannotListen => writeln!(faults, "cannot listen"),
            Fault::Refused(why) => writeln!(faults, "refused {}", why.name()),
            Fault::CannotRead => writeln!(faults, "cannot read standard input"),
            Fault::CannotWrite => writeln!(faults, "cannot write standard output"),
        }
    }
}

/// Of words for which nothing begins.
impl From<AskFault> for Fault<'_> {
    ghost use Rattle.std.specs.Prelude.{◌≡◌};
    ghost use Rattle.jtool.specs.Programs.{refused_words};

    ghost from_gives = { λ why fault. fault ≡ refused_words why };

    fn from(why: AskFault) -> Self {
        match why {
            AskFault::Usage => Fault::Usage,
            AskFault::BadSize => Fault::BadSize,
        }
    }
}

/// Of a script that was given up.
impl From<ScriptFault> for Fault<'_> {
    ghost use Rattle.std.specs.Prelude.{◌≡◌};
    ghost use Rattle.jtool.specs.Programs.{stopped};

    ghost from_gives = { λ stop fault. fault ≡ stopped stop };

    fn from(stop: ScriptFault) -> Self {
        match stop {
            ScriptFault::Refused(why) => Fault::Refused(why),
            ScriptFault::CannotRead => Fault::CannotRead,
            ScriptFault::CannotWrite => Fault::CannotWrite,
        }
    }
}

impl From<AllocError> for Fault<'_> {
    fn from(_error: AllocError) -> Self {
        Fault::Refused(Refusal::NoMemory)
    }
}

/// Of the program's words and its output's buffer: either memory was refused, or the words are no
/// text.
impl From<io::Error> for Fault<'_> {
    fn from(error: io::Error) -> Self {
        if error.kind() == ErrorKind::OutOfMemory {
            Fault::Refused(Refusal::NoMemory)
        } else {
            Fault::Usage
        }
    }
}
