// Why a program fails.
ghost use Rattle.std.specs.Prelude.{◌≤◌};

use crate::regions::OtherRegions;
use journal_program::{DeviceFault, LabelFault, OpenFault, SizedDisk};
use journal_records::Refused as Answered;
use journal_world::{
    MAX_BLOCKS, MAX_LAYOUT_BLOCKS, MAX_SLOTS, MIN_BLOCKS, REGIONS, Refusal, SUPERBLOCK,
};
use std::alloc::AllocError;
use std::io;
use std::io::{ErrorKind, Write};

/// Why a program ends before it has done what it was asked for.
#[derive(Drop)]
pub enum Fault<'w> {
    /// The words ask for help or the version, or are no command, as this text says.
    Words(clap::Error),
    /// The words are no command.
    NoCommand,
    /// The words ask for a service of files, which another program has.
    ServesNoFiles,
    /// This text is no address of IP.
    NoAddress {
        text: &'w str,
    },
    /// This text is no range of addresses.
    NoRange {
        text: &'w str,
    },
    /// This text is a range of addresses, and has bits set after those that its addresses share.
    BitsAfterRange {
        text: &'w str,
    },
    /// This text is no region.
    NoRegion {
        text: &'w str,
    },
    /// There are more regions than a layout has.
    TooManyRegions,
    /// The regions do not begin at block 513, or do not rise.
    BadRegions,
    /// This number of slots is even, or too large.
    BadSlots {
        slots: u16,
    },
    /// No disk of files has the numbers that were asked for, as this text says.
    NoSuchDisk {
        why: &'static str,
    },
    /// The file at the path cannot be used, for the system's reason.
    File {
        path: &'w str,
        why: io::Error,
    },
    /// The file at the path has this number of blocks, which no disk has.
    NoDisk {
        path: &'w str,
        blocks: u64,
    },
    /// The disk in the file at the path has more blocks than one with the layout of files.
    NeedsRegions {
        path: &'w str,
        blocks: u64,
    },
    /// The label of the disk in the file at the path is not that of the file.
    Label {
        path: &'w str,
        why: LabelFault,
    },
    /// The path is no block device that can be used, or a disk is in no such file.
    Device {
        path: &'w str,
        why: DeviceFault,
    },
    /// The device at the path holds this.
    Holds {
        path: &'w str,
        content: &'w str,
    },
    /// The disk at the path is on a block device, which has its own number of blocks.
    OnDevice {
        path: &'w str,
    },
    /// The disk on the device at the path has no label, so its old number of blocks is not known.
    HasNoLabel {
        path: &'w str,
    },
    /// The disk in the file at the path has a label already.
    HasLabel {
        path: &'w str,
    },
    /// The label of the disk in the file at the path tells other regions than those that were
    /// asked for.
    OtherRegions {
        path: &'w str,
        regions: OtherRegions,
    },
    /// The disk in the file at the path has a label that tells no regions, and would have more
    /// blocks than one with the layout of files.
    TellsNoRegions {
        path: &'w str,
    },
    /// The disk in the file at the path has this number of blocks, and fewer were asked for.
    Smaller {
        path: &'w str,
        blocks: u64,
    },
    /// The disk in the file at the path is one of the file service, which this command does not
    /// make larger.
    CannotGrow {
        path: &'w str,
    },
    /// The disk in the file at the path was refused.
    Refused {
        path: &'w str,
        why: Refusal<()>,
    },
    /// The device of the disk in the file at the path failed while it was served, for the system's
    /// reason.
    DeviceFailed {
        path: &'w str,
        why: io::Error,
    },
    /// The disk in the file at the path is one of the file service.
    HasFiles {
        path: &'w str,
    },
    /// The disk in the file at the path is none of the file service.
    HasNoFiles {
        path: &'w str,
    },
    /// The disk in the file at the path has a tree, whose label does not say how it is cut.
    NotCut {
        path: &'w str,
    },
    /// The disk in the file at the path has a tree, and was to get another version.
    HasTree {
        path: &'w str,
    },
    /// The disk in the file at the path has a tree, and its flat files were to be written to one.
    NotFlat {
        path: &'w str,
    },
    /// Something is where a disk with this path is to be made until it is whole.
    HasNewPart {
        new: &'w str,
    },
    /// The disk that was to be made at the path has no room for the files of another one.
    NoRoom {
        path: &'w str,
    },
    /// The disk that was made at the path has other files than were written to it.
    Differs {
        path: &'w str,
    },
    /// The disk in the file at the path has flat files, whose service looks at no credential, and
    /// was to be served with root squashed.
    NoSquash {
        path: &'w str,
    },
    /// Something is where a copy with this path is to be made until it is whole.
    HasPart {
        copy: &'w str,
    },
    /// The port cannot be had, or the system refuses connections.
    CannotListen,
    /// The service at the socket gave no answer, or one that is none to what it was asked.
    NoAnswer {
        socket: &'w str,
    },
    /// The service at the socket is to end, and has not ended yet.
    NotEnded {
        socket: &'w str,
    },
    /// The service at the socket refused to end.
    NotStopped {
        socket: &'w str,
        why: Answered,
    },
    /// The service at the socket has ended because its device had failed.
    NotStable {
        socket: &'w str,
    },
    /// The service at the socket counts nothing: it is of version 1 of the protocol.
    CountsNothing {
        socket: &'w str,
    },
    /// The system gives no random bits.
    NoRandom,
    /// Memory was refused, or a thread.
    NoMemory,
    /// Standard output failed.
    CannotWrite,
}

impl<'w> Fault<'w> {
    /// The disk in the file at the path was refused.
    pub fn refused<C: Drop>(path: &'w str, why: Refusal<C>) -> Fault<'w> {
        Fault::Refused {
            path,
            why: why.with_cause(()),
        }
    }

    /// A call of the disk in the file at the path failed, or else the disk was refused.
    pub fn failed_or_refused<C: Drop>(
        path: &'w str,
        disk: SizedDisk,
        why: Refusal<C>,
    ) -> Fault<'w> {
        match disk.into_failure() {
            Some(why) => Fault::DeviceFailed { path, why },
            None => Fault::refused(path, why),
        }
    }

    /// The disk in the file at the path was not opened.
    pub fn unopened(path: &'w str, why: OpenFault) -> Fault<'w> {
        match why {
            OpenFault::File(why) => Fault::File { path, why },
            OpenFault::NoDisk { blocks } => Fault::NoDisk { path, blocks },
            OpenFault::Label(why) => Fault::Label { path, why },
            OpenFault::Device(why) => Fault::Device { path, why },
            OpenFault::Refused(why) => Fault::Refused { path, why },
        }
    }

    /// Prints the fault of the program of this name, and answers the program's status: 0 where the
    /// words asked for help or the version and it was printed, 2 where they are no command, else 1.
    pub fn report<O: Write, E: Write>(&self, program: &str, output: &mut O, faults: &mut E) -> u8
        ensures { result ≤ 2 }
    {
        match self {
            Fault::Words(text) if !text.use_stderr() => {
                match write!(output, "{text}").and_then(|()| output.flush()) {
                    Ok(()) => 0,
                    Err(_) => Fault::CannotWrite.report_fault(program, faults),
                }
            }
            _ => self.report_fault(program, faults),
        }
    }

    // Prints the fault on standard error, and answers the program's status.
    fn report_fault<E: Write>(&self, program: &str, faults: &mut E) -> u8
        ensures { result ≤ 2 }
    {
        // Where even this cannot be printed, the status is all that is left to say.
        let _ = self.print(program, faults);
        match self {
            Fault::Words(_)
            | Fault::NoCommand
            | Fault::ServesNoFiles
            | Fault::NoAddress { .. }
            | Fault::NoRange { .. }
            | Fault::BitsAfterRange { .. }
            | Fault::NoRegion { .. }
            | Fault::TooManyRegions
            | Fault::BadRegions
            | Fault::BadSlots { .. }
            | Fault::NoSuchDisk { .. } => 2,
            Fault::File { .. }
            | Fault::NoDisk { .. }
            | Fault::NeedsRegions { .. }
            | Fault::Label { .. }
            | Fault::Device { .. }
            | Fault::Holds { .. }
            | Fault::OnDevice { .. }
            | Fault::HasNoLabel { .. }
            | Fault::HasLabel { .. }
            | Fault::OtherRegions { .. }
            | Fault::TellsNoRegions { .. }
            | Fault::Smaller { .. }
            | Fault::CannotGrow { .. }
            | Fault::Refused { .. }
            | Fault::DeviceFailed { .. }
            | Fault::HasFiles { .. }
            | Fault::HasNoFiles { .. }
            | Fault::NotCut { .. }
            | Fault::HasTree { .. }
            | Fault::NotFlat { .. }
            | Fault::HasNewPart { .. }
            | Fault::NoRoom { .. }
            | Fault::Differs { .. }
            | Fault::NoSquash { .. }
            | Fault::HasPart { .. }
            | Fault::CannotListen
            | Fault::NoAnswer { .. }
            | Fault::NotEnded { .. }
            | Fault::NotStopped { .. }
            | Fault::NotStable { .. }
            | Fault::CountsNothing { .. }
            | Fault::NoRandom
            | Fault::NoMemory
            | Fault::CannotWrite => 1,
        }
    }

    fn print<E: Write>(&self, program: &str, faults: &mut E) -> io::Result<()> {
        match self {
            Fault::Words(text) => write!(faults, "{text}"),
            Fault::NoCommand => writeln!(
                faults,
                "{program}: this is no command; {program} --help prints all of them"
            ),
            Fault::ServesNoFiles => writeln!(
                faults,
                "{program}: files are served by another program: jnlfs serve FILE --port P"
            ),
            Fault::NoAddress { text } => {
                writeln!(faults, "{program}: {text} is no address like 127.0.0.1")
            }
            Fault::NoRange { text } => writeln!(
                faults,
                "{program}: {text} is no range of addresses like 10.0.0.0/8, 10.0.0.5/32 or fd00::/8"
            ),
            Fault::BitsAfterRange { text } => writeln!(
                faults,
                "{program}: {text} has bits set after the first ones that it names, and a range has none: see 10.0.0.0/8, and for one address 10.0.0.5/32"
            ),
            Fault::NoRegion { text } => writeln!(
                faults,
                "{program}: {text} is no region like 513:block, 514:bit or 515:record64"
            ),
            Fault::TooManyRegions => {
                writeln!(faults, "{program}: a layout has at most {REGIONS} regions")
            }
            Fault::BadRegions => writeln!(
                faults,
                "{program}: the first region begins at block {SUPERBLOCK}, and each other one above the one before it"
            ),
            Fault::BadSlots { slots } => writeln!(
                faults,
                "{program}: the number of slots is odd and at most {MAX_SLOTS}, and not {slots}"
            ),
            Fault::NoSuchDisk { why } => writeln!(faults, "{program}: {why}"),
            Fault::File { path, why } if why.kind() == ErrorKind::WouldBlock => {
                writeln!(faults, "{program}: {path} is used by another program")
            }
            Fault::File { path, why } => writeln!(faults, "{program}: cannot use {path}: {why}"),
            Fault::NoDisk { path, blocks } => writeln!(
                faults,
                "{program}: {path} has {blocks} blocks, and a disk has {MIN_BLOCKS} to {MAX_LAYOUT_BLOCKS}"
            ),
            Fault::NeedsRegions { path, blocks } => writeln!(
                faults,
                "{program}: {path} has {blocks} blocks, and more than {MAX_BLOCKS} are served by --region alone"
            ),
            Fault::Label { path, why } => writeln!(faults, "{program}: {path} {why}"),
            Fault::Device { path, why } => writeln!(faults, "{program}: {path} {why}"),
            Fault::Holds { path, content } => writeln!(
                faults,
                "{program}: {path} holds {content}, which create --device destroys with --force alone"
            ),
            Fault::OnDevice { path } => writeln!(
                faults,
                "{program}: {path} is a block device; grow --device takes all its blocks"
            ),
            Fault::HasNoLabel { path } => writeln!(
                faults,
                "{program}: {path} has no label, without which nobody knows which of its blocks are new"
            ),
            Fault::HasLabel { path } => writeln!(
                faults,
                "{program}: {path} has a label already; with --again it gets another one"
            ),
            Fault::OtherRegions { path, regions } => {
                writeln!(faults, "{program}: {path} has the regions {regions}")
            }
            Fault::TellsNoRegions { path } => writeln!(
                faults,
                "{program}: {path} has no regions in its label, without which a disk has at most {MAX_BLOCKS} blocks"
            ),
            Fault::Smaller { path, blocks } => writeln!(
                faults,
                "{program}: {path} has {blocks} blocks, and a disk never gets fewer"
            ),
            Fault::CannotGrow { path } => writeln!(
                faults,
                "{program}: {path} is a disk of the file service: a tree grows by jnlfs grow, and flat files move to a larger tree by jnlfs migrate"
            ),
            Fault::Refused { path, why } => {
                writeln!(faults, "{program}: {path} is refused: {}", why.name())
            }
            Fault::DeviceFailed { path, why } => writeln!(
                faults,
                "{program}: {path} has failed: {why}"
            ),
            Fault::HasFiles { path } => writeln!(
                faults,
                "{program}: {path} is a disk of the file service, whose files would not stay sound"
            ),
            Fault::HasNoFiles { path } => writeln!(
                faults,
                "{program}: {path} is no disk of the file service, which jnlfs make makes"
            ),
            Fault::NotCut { path } => writeln!(
                faults,
                "{program}: {path} has no label that says how a tree is cut"
            ),
            Fault::HasTree { path } => writeln!(
                faults,
                "{program}: {path} is a disk of version 3, and one of version 1 is migrated"
            ),
            Fault::NotFlat { path } => writeln!(
                faults,
                "{program}: {path} is a disk of version 3, and the files of one of version 1 or 2 are written to a new disk"
            ),
            Fault::HasNewPart { new } => writeln!(
                faults,
                "{program}: {new}.part is there: another migration makes it, or one was stopped, and it can be removed"
            ),
            Fault::NoRoom { path } => writeln!(
                faults,
                "{program}: {path} has too few blocks or inodes for all files, and was not made: see --blocks and --inodes"
            ),
            Fault::Differs { path } => writeln!(
                faults,
                "{program}: {path} reads otherwise than it was written, and was not made"
            ),
            Fault::NoSquash { path } => writeln!(
                faults,
                "{program}: {path} has no tree, and without one no credential is looked at: --squash is of a tree"
            ),
            Fault::HasPart { copy } => writeln!(
                faults,
                "{program}: {copy}.part is there: another backup makes it, or one was stopped, and it can be removed"
            ),
            Fault::CannotListen => writeln!(faults, "{program}: cannot listen"),
            Fault::NoAnswer { socket } => {
                writeln!(faults, "{program}: the service at {socket} gave no answer")
            }
            Fault::NotEnded { socket } => {
                writeln!(
                    faults,
                    "{program}: the service at {socket} has not ended yet"
                )
            }
            Fault::NotStopped { socket, why } => {
                writeln!(
                    faults,
                    "{program}: the service at {socket} goes on: {why:?}"
                )
            }
            Fault::NotStable { socket } => writeln!(
                faults,
                "{program}: the service at {socket} has ended, and not all is stable: its device has failed"
            ),
            Fault::CountsNothing { socket } => writeln!(
                faults,
                "{program}: the service at {socket} counts nothing; it speaks version 1 of the protocol alone"
            ),
            Fault::NoRandom => writeln!(faults, "{program}: the system gives no random number"),
            Fault::NoMemory => writeln!(faults, "{program}: no memory"),
            Fault::CannotWrite => writeln!(faults, "{program}: cannot write standard output"),
        }
    }
}

impl From<clap::Error> for Fault<'_> {
    fn from(error: clap::Error) -> Self {
        Fault::Words(error)
    }
}

impl From<AllocError> for Fault<'_> {
    fn from(_error: AllocError) -> Self {
        Fault::NoMemory
    }
}

/// Of the program's words and its output's buffer: memory was refused, or the words are no text.
impl From<io::Error> for Fault<'_> {
    fn from(error: io::Error) -> Self {
        if error.kind() == ErrorKind::OutOfMemory {
            Fault::NoMemory
        } else {
            Fault::NoCommand
        }
    }
}
