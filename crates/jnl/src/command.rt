// The command line.

use crate::disks::AskedDevice;
use crate::serving::Service;
use crate::stat::StatForm;
use clap::{Arg, ArgAction, ArgMatches, Command, value_parser};
use journal_commands::{
    AskedLayout, FILE, Fault, JNL_VERSIONS, Regions, file_arg, flag_arg, named_regions, option_arg,
    program_command, subcommand, word,
};
use journal_form::LogForm;
use journal_program::{Room, Zeros};
use journal_world::SLOTS;
use std::alloc::{AllocError, Global};

/// The name of the program.
pub const PROGRAM: &str = "jnl";

const ABOUT: &str = "A transactional block journal on a disk in a file";

const SERVE_NOTES: &str =
    "Only the owner of the socket can open it. A socket whose program is gone is replaced, and anything else at PATH is refused. The port of --tcp has no access check: each program on this machine can read and write the disk there, but not end the service.\n\nThe first lines of the output say where it listens. jnl stop ends it once all commits are stable. A signal ends it as a crash does: each commit that was answered as stable stands. Where the device fails, standard error has the reason, and the status is 1.\n\nWith --read-only nothing is written to FILE, and others may serve it so too.\n\nA disk of files is refused without --read-only: jnlfs serves it.\n\nKIND is bit, block, or a record of so many bytes: record8, record16, record32, record64, record128, record256, record512, record1024, record2048. A region goes to the block before the next one, and the last to the end of the disk. FIRST rises from one region to the next. A disk that jnl create made, or jnl label, has its regions in its label: name none, or the same. Without a label the disk does not tell its regions: name the same each time, or none for 513:block 514:bit 515:record128 531:block on a disk of at most 33299 blocks. Another number of slots may be named each time.";

// The subcommand that another program has now.
const FILES_WORD: &str = "nfs";

// The names of the arguments.
const BLOCKS: &str = "blocks";

const DEVICE: &str = "device";

const ZEROED: &str = "zeroed";

const FORCE: &str = "force";

const UNDO: &str = "undo";

const AGAIN: &str = "again";

const SOCKET: &str = "socket";

const TCP: &str = "tcp";

const CONNECTIONS: &str = "connections";

const REGION: &str = "region";

const SLOTS_WORD: &str = "slots";

const PROMETHEUS: &str = "prometheus";

const ALLOCATE: &str = "allocate";

const COPY: &str = "COPY";

const REPLACE: &str = "replace";

const READ_ONLY: &str = "read-only";

// How many connections are served at once where no number is given.
const DEFAULT_CONNECTIONS: u64 = 1024;

/// The task that the words of the command line name.
#[derive(Drop)]
pub enum Subcommand<'w> {
    /// Make an empty disk of this number of blocks, with these regions, in a new file.
    Create {
        path: &'w str,
        blocks: u64,
        regions: Option<Regions>,
        room: Room,
    },
    /// Make an empty disk of all blocks of a block device.
    CreateOnDevice(AskedDevice<'w>),
    /// Give the disk in a file a label with these regions, also one that has a label.
    Label {
        path: &'w str,
        regions: Option<Regions>,
        again: bool,
    },
    /// Give the disk in a file `blocks` blocks.
    Grow {
        path: &'w str,
        blocks: u64,
    },
    /// Give the disk on a block device all blocks of the device.
    GrowOnDevice {
        path: &'w str,
        zeros: Zeros,
    },
    /// Print what the disk in a file is.
    Info {
        path: &'w str,
    },
    /// Print that the disk in a file is sound.
    Check {
        path: &'w str,
    },
    /// Copy the disk in a file to another one, also to one that is there.
    Backup {
        path: &'w str,
        copy: &'w str,
        replaces: bool,
    },
    /// Give the log of the disk in a file this form.
    Seal {
        path: &'w str,
        form: LogForm,
    },
    /// Serve the disk in a file.
    Serve(Service<'w>),
    /// Print what the service at a socket has counted.
    Stat {
        socket: &'w str,
        form: StatForm,
    },
    /// End the service at a socket.
    Stop {
        socket: &'w str,
    },
}

impl<'w> Subcommand<'w> {
    /// Reads the words of the command line, without the program's name.
    ///
    /// # Errors
    /// - `ServesNoFiles`: they begin with the subcommand that served files.
    /// - `Words`: they ask for help or the version, or are no command.
    /// - `NoCommand`: no subcommand can be made of them.
    /// - `NoMemory`: memory is refused.
    pub fn parse(alloc: Global, words: &'w [String]) -> Result<Subcommand<'w>, Fault<'w>> {
        if let Some(first) = words.first()
            && first.as_str() == FILES_WORD
        {
            return Err(Fault::ServesNoFiles);
        }
        let matches = command(alloc)?.try_get_matches_from(words)?;
        let Some((name, given)) = matches.subcommand() else {
            return Err(Fault::NoCommand);
        };
        match name {
            "create" => parse_create(given),
            "label" => Ok(Subcommand::Label {
                path: word(given, FILE)?,
                regions: named_regions(given.get_strs(REGION))?,
                again: given.get_flag(AGAIN),
            }),
            "grow" => parse_grow(given),
            "info" => Ok(Subcommand::Info {
                path: word(given, FILE)?,
            }),
            "check" => Ok(Subcommand::Check {
                path: word(given, FILE)?,
            }),
            "backup" => Ok(Subcommand::Backup {
                path: word(given, FILE)?,
                copy: word(given, COPY)?,
                replaces: given.get_flag(REPLACE),
            }),
            "seal" => parse_seal(given),
            "serve" => parse_serve(given),
            "stat" => parse_stat(given),
            "stop" => Ok(Subcommand::Stop {
                socket: word(given, SOCKET)?,
            }),
            _ => Err(Fault::NoCommand),
        }
    }
}

fn parse_create<'w>(given: &ArgMatches<'w>) -> Result<Subcommand<'w>, Fault<'w>> {
    if let Some(path) = given.get_str(DEVICE) {
        return Ok(Subcommand::CreateOnDevice(AskedDevice {
            path,
            regions: named_regions(given.get_strs(REGION))?,
            zeros: zeros_of(given),
            force: given.get_flag(FORCE),
        }));
    }
    Ok(Subcommand::Create {
        path: word(given, FILE)?,
        blocks: blocks_of(given)?,
        regions: named_regions(given.get_strs(REGION))?,
        room: if given.get_flag(ALLOCATE) {
            Room::All
        } else {
            Room::Log
        },
    })
}

fn parse_grow<'w>(given: &ArgMatches<'w>) -> Result<Subcommand<'w>, Fault<'w>> {
    if let Some(path) = given.get_str(DEVICE) {
        let zeros = zeros_of(given);
        return Ok(Subcommand::GrowOnDevice { path, zeros });
    }
    Ok(Subcommand::Grow {
        path: word(given, FILE)?,
        blocks: blocks_of(given)?,
    })
}

// How the blocks of a device are to come to be zeros.
fn zeros_of(given: &ArgMatches<'_>) -> Zeros {
    if given.get_flag(ZEROED) {
        Zeros::Found
    } else {
        Zeros::Written
    }
}

// The number of blocks that a subcommand requires.
fn blocks_of<'w>(given: &ArgMatches<'w>) -> Result<u64, Fault<'w>> {
    match given.get_one::<u64>(BLOCKS) {
        Some(blocks) => Ok(blocks),
        None => Err(Fault::NoCommand),
    }
}

fn parse_seal<'w>(given: &ArgMatches<'w>) -> Result<Subcommand<'w>, Fault<'w>> {
    let form = if given.get_flag(UNDO) {
        LogForm::Plain
    } else {
        LogForm::Sealed
    };
    Ok(Subcommand::Seal {
        path: word(given, FILE)?,
        form,
    })
}

fn parse_serve<'w>(given: &ArgMatches<'w>) -> Result<Subcommand<'w>, Fault<'w>> {
    let slots = given.get_one::<u16>(SLOTS_WORD).unwrap_or(SLOTS);
    Ok(Subcommand::Serve(Service {
        path: word(given, FILE)?,
        socket: word(given, SOCKET)?,
        port: given.get_one::<u16>(TCP),
        connections: given
            .get_one::<u64>(CONNECTIONS)
            .unwrap_or(DEFAULT_CONNECTIONS),
        layout: AskedLayout::parse(given.get_strs(REGION), slots)?,
        is_read_only: given.get_flag(READ_ONLY),
    }))
}

fn parse_stat<'w>(given: &ArgMatches<'w>) -> Result<Subcommand<'w>, Fault<'w>> {
    let form = if given.get_flag(PROMETHEUS) {
        StatForm::Prometheus
    } else {
        StatForm::Lines
    };
    Ok(Subcommand::Stat {
        socket: word(given, SOCKET)?,
        form,
    })
}

// The grammar of the command line, from which its help is printed.
fn command<'w>(alloc: Global) -> Result<Command<'w>, AllocError> {
    program_command(alloc, PROGRAM, ABOUT, JNL_VERSIONS)?
        .subcommand(create_command(alloc)?)?
        .subcommand(info_command(alloc)?)?
        .subcommand(check_command(alloc)?)?
        .subcommand(backup_command(alloc)?)?
        .subcommand(seal_command(alloc)?)?
        .subcommand(label_command(alloc)?)?
        .subcommand(grow_command(alloc)?)?
        .subcommand(serve_command(alloc)?)?
        .subcommand(stat_command(alloc)?)?
        .subcommand(stop_command(alloc)?)
}

fn create_command<'w>(alloc: Global) -> Result<Command<'w>, AllocError> {
    let force = flag_arg(alloc, FORCE, "Destroys what the device holds")
        .requires_arg(DEVICE)?
        .conflicts_with(FILE)?;
    let blocks = blocks_arg(
        alloc,
        "How many blocks of 4096 bytes the disk has, 532 to 1099511627776",
    );
    let allocate = flag_arg(
        alloc,
        ALLOCATE,
        "Writes zeros to every block, so that each has its room in the file system",
    )
    .conflicts_with(DEVICE)?;
    subcommand(
        alloc,
        "create",
        "Makes an empty disk with a sealed log in a new file, or on a block device",
        "Give FILE and --blocks, or --device.\n\nRefused where FILE is there. Where it is refused later, as for want of room, no FILE is left. When it is done, FILE's name and the room of the log are stable, and its owner alone may use it. The other blocks take room once they are written, where there may be none, or at once with --allocate. FILE keeps N and the regions in a label, and serve takes them from it. Without --region a disk of at most 33299 blocks has the regions 513:block 514:bit 515:record128 531:block, and a larger one is served with --region alone.\n\nOn a block device the disk has all whole blocks of the device, and they become zeros; a line after each tenth says how far it is. Refused, unless --force is given, where the device holds a disk of jnl, a file system, a partition table, another known content, or other bytes than zeros where the log is to be. It is not seen whether the device is mounted: see that before --force. Where it is stopped, no program uses the device as a disk; call it again with --force.\n\nWith --zeroed the blocks are zeros already, as after blkdiscard -z PATH. Then 1024 of them are read, and the others are trusted: an object has at first what its block has.",
    )
    .arg(or_device(file_arg(alloc, "The file to make"))?)?
    .arg(or_device(blocks)?)?
    .arg(device_arg(
        alloc,
        "The block device to make a disk of, in place of FILE",
    ))?
    .arg(zeroed_arg(alloc)?)?
    .arg(force)?
    .arg(region_arg(alloc))?
    .arg(allocate)
}

fn label_command<'w>(alloc: Global) -> Result<Command<'w>, AllocError> {
    let again = flag_arg(alloc, AGAIN, "Writes another label where the disk has one");
    subcommand(
        alloc,
        "label",
        "Gives a disk that an older program made a label: its number of blocks and its regions",
        "Refused while a program has FILE, and where the disk has a label, unless --again is given. Without --region the label has the regions of the label before it, or those that create gives. Name those by which the disk was served: by other regions the same bytes are other objects.",
    )
    .arg(file_arg(alloc, "The file of the disk"))?
    .arg(region_arg(alloc))?
    .arg(again)
}

fn grow_command<'w>(alloc: Global) -> Result<Command<'w>, AllocError> {
    subcommand(
        alloc,
        "grow",
        "Gives a disk more blocks, which are zeros",
        "Give FILE and --blocks, or --device.\n\nRefused while a program has FILE, where the disk has more blocks, where it is one of the file service, and above 33299 blocks where its label has no regions. The last region takes the new blocks. Where it was stopped, the disk has its old number of blocks or the new one; call it again.\n\nA disk on a block device takes all blocks of the device. It must have a label. The new blocks become zeros; a line after each tenth says how far it is. With --zeroed they are zeros already: 1024 of them are read, and the others are trusted.",
    )
    .arg(or_device(file_arg(alloc, "The file of the disk"))?)?
    .arg(or_device(blocks_arg(alloc, "How many blocks of 4096 bytes the disk has then"))?)?
    .arg(device_arg(
        alloc,
        "The block device of the disk, which has become longer, in place of FILE",
    ))?
    .arg(zeroed_arg(alloc)?)
}

fn info_command<'w>(alloc: Global) -> Result<Command<'w>, AllocError> {
    subcommand(
        alloc,
        "info",
        "Prints the number of blocks of a disk, the form of its log, whether it has files, and its label",
        "Nothing is written to FILE.",
    )
    .arg(file_arg(alloc, "The file of the disk"))
}

fn check_command<'w>(alloc: Global) -> Result<Command<'w>, AllocError> {
    subcommand(
        alloc,
        "check",
        "Checks that the log of a disk is well formed, and says whether it has files, which jnlfs check checks",
        "Nothing is written to FILE. A plain copy of a disk that was served meanwhile may pass, though it is torn.",
    )
    .arg(file_arg(alloc, "The file of the disk"))
}

fn backup_command<'w>(alloc: Global) -> Result<Command<'w>, AllocError> {
    let copy = Arg::new(alloc, COPY)
        .required(true)
        .help("The file to make");
    let replace = flag_arg(
        alloc,
        REPLACE,
        "Lets COPY take the place of a file that is there",
    );
    subcommand(
        alloc,
        "backup",
        "Copies a disk that no program writes to another file",
        "Refused while a program has FILE that may write it, where its log is not well formed, and where COPY is there. COPY gets its name once it is whole and stable, and its owner alone may use it. Blocks of zeros take no room there. It is made as COPY.part, which a run that is killed leaves.",
    )
    .arg(file_arg(alloc, "The file of the disk"))?
    .arg(copy)?
    .arg(replace)
}

fn seal_command<'w>(alloc: Global) -> Result<Command<'w>, AllocError> {
    let undo = flag_arg(
        alloc,
        UNDO,
        "Gives the log the plain form again, before an older program is to open the disk",
    );
    subcommand(
        alloc,
        "seal",
        "Gives the log of a disk the sealed form: one barrier a group of commits, where the plain form takes two",
        "All commits stay, also where the program is killed or the power fails. A program that knows the plain form alone answers J7 BadLog to a sealed log.",
    )
    .arg(file_arg(alloc, "The file of the disk"))?
    .arg(undo)
}

fn serve_command<'w>(alloc: Global) -> Result<Command<'w>, AllocError> {
    let read_only = flag_arg(
        alloc,
        READ_ONLY,
        "Opens FILE to read it alone, and refuses each transaction that writes, by status 71",
    );
    subcommand(
        alloc,
        "serve",
        "Serves a disk to programs in any language, by the protocol of docs/PROTOCOL.md",
        SERVE_NOTES,
    )
    .arg(file_arg(alloc, "The file of the disk"))?
    .arg(socket_arg(alloc, "The socket to make"))?
    .arg(tcp_arg(alloc))?
    .arg(connections_arg(alloc))?
    .arg(region_arg(alloc))?
    .arg(slots_arg(alloc))?
    .arg(read_only)
}

fn stat_command<'w>(alloc: Global) -> Result<Command<'w>, AllocError> {
    let prometheus = flag_arg(alloc, PROMETHEUS, "Prints the text that Prometheus reads");
    subcommand(
        alloc,
        "stat",
        "Prints what the service at a socket has counted since it opened its disk",
        "Each line has a counter and its value. docs/OPERATING.md says what each counts, and what to do when it grows. The first line has the number of the opening: another number says that the service was started again, and that all counters began anew.",
    )
    .arg(socket_arg(alloc, "The socket of the service"))?
    .arg(prometheus)
}

fn stop_command<'w>(alloc: Global) -> Result<Command<'w>, AllocError> {
    Command::new(alloc, "stop")
        .about("Ends the service at a socket, once all its commits are stable")
        .arg(socket_arg(alloc, "The socket of the service"))
}

// The number of blocks of a disk.
fn blocks_arg<'w>(alloc: Global, help: &'w str) -> Arg<'w> {
    option_arg(alloc, BLOCKS, "N", help)
        .required(true)
        .value_parser(value_parser!(u64).range(532..=1099511627776))
}

// A block device, in place of a file.
fn device_arg<'w>(alloc: Global, help: &'w str) -> Arg<'w> {
    option_arg(alloc, DEVICE, "PATH", help)
}

// The same argument, which is required where no block device is named, and goes with none.
fn or_device<'w>(arg: Arg<'w>) -> Result<Arg<'w>, AllocError> {
    arg.required(false)
        .required_unless_present(DEVICE)?
        .conflicts_with(DEVICE)
}

// That the blocks of a device are zeros.
fn zeroed_arg<'w>(alloc: Global) -> Result<Arg<'w>, AllocError> {
    flag_arg(
        alloc,
        ZEROED,
        "The blocks are zeros already, as after blkdiscard -z: only samples are read",
    )
    .requires_arg(DEVICE)?
    .conflicts_with(FILE)
}

// The regions of a disk.
fn region_arg<'w>(alloc: Global) -> Arg<'w> {
    option_arg(
        alloc,
        REGION,
        "FIRST:KIND",
        "The kind of the objects from block FIRST on; up to eight times, the first from 513",
    )
    .action(ArgAction::Append)
}

// The socket that a subcommand is for.
fn socket_arg<'w>(alloc: Global, help: &'w str) -> Arg<'w> {
    option_arg(alloc, SOCKET, "PATH", help).required(true)
}

// A port to listen on besides.
fn tcp_arg<'w>(alloc: Global) -> Arg<'w> {
    option_arg(
        alloc,
        TCP,
        "PORT",
        "Listens on this port of 127.0.0.1 too, or on one that is free for 0",
    )
    .value_parser(value_parser!(u16))
}

// The most connections.
fn connections_arg<'w>(alloc: Global) -> Arg<'w> {
    option_arg(
        alloc,
        CONNECTIONS,
        "N",
        "How many connections are open at once, 1 to 1024; one more is a visitor, and further ones wait",
    )
    .value_parser(value_parser!(u64).range(1..=1024))
    .default_value("1024")
}

// The number of slots.
fn slots_arg<'w>(alloc: Global) -> Arg<'w> {
    option_arg(
        alloc,
        SLOTS_WORD,
        "S",
        "How many locks the objects share, an odd number up to 65521",
    )
    .value_parser(value_parser!(u16).range(1..=65521))
    .default_value("257")
}
