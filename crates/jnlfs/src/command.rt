// The command line.

use crate::allowing::allowed_addresses;
use crate::making::{NewDisk, NewFiles};
use crate::migrating::Migration;
use crate::serving::Service;
use clap::{Arg, ArgAction, ArgMatches, Command, value_parser};
use journal_clients::{AllowedAddresses, Reads};
use journal_commands::{
    FILE, Fault, JNLFS_VERSIONS, file_arg, flag_arg, option_arg, program_command, subcommand, word,
};
use journal_program::Room;
use std::alloc::{AllocError, Global};
use std::net::IpAddr;

/// The name of the program.
pub const PROGRAM: &str = "jnlfs";

const ABOUT: &str = "Files on a disk of a transactional block journal";

const SERVE_NOTES: &str =
    "A client mounts /files, or /, by version 3 of NFS and of MOUNT, which are both on this port:\n  mount -t nfs -o vers=3,nolock,proto=tcp,port=P,mountproto=tcp,mountport=P HOST:/files DIRECTORY\n\nOf a disk of version 3 a call has the rights of the user and the groups that it names, as the modes of files and directories say. Nothing proves who calls: a program may name any user, also root, which has no more rights than nobody with --squash. Of a disk of version 1 or 2 the service looks at no user. So whoever reaches the address reads and writes all files: each program on this machine, and with another address than 127.0.0.1 each machine of the network too.\n\nWith --allow only clients are served whose addresses are in a range. The connection of any other client is closed at once: nothing of it is read, and nothing is sent to it. Each word is a range: 10.0.0.0/8 has the addresses that begin with 10, 10.0.0.5/32 that one alone, and fd00::/8 those of version 6 of IP that begin with fd. One with bits set after the first BITS, as 10.0.0.5/8, is refused, because it may be meant as either. A client of version 4 that comes to an address of version 6, as to ::, has its address of version 4. A line on standard error says at the start whose connections are taken. Before the line stopped the output has the line refused N, where N other connections came. An address proves little: a machine of the same network can take another one's, and all users of a machine have its address.\n\nThe first line of the output says at which port it listens. jnlfs stop ends it once all is stable, where --control names a socket. Only the owner of that socket can open it. A socket whose program is gone is replaced, and anything else at PATH is refused. A signal ends the service as a crash does: all that was answered as stable stands, and a client sends its other writes again once the disk is served anew. Where the device fails, standard error has the reason, and the status is 1.\n\nWith --read-only nothing is written to FILE, which need not be writable then, and others may read it too. A client mounts it with the option ro.\n\njnlfs make makes a disk of files. Any other is refused.";

const MAKE_NOTES: &str =
    "Refused where FILE is there. Where it is refused later, as for want of room, no FILE is left. When it is done, FILE's name and the room of the log are stable, and its owner alone may use it. The other blocks take room once they are written, where there may be none, or at once with --allocate. A disk of version 3 can grow later: see jnlfs grow.\n\nA disk of version 3 has a tree of directories, files and symbolic links. Each of these takes an inode, a name has at most 255 bytes, a file at most 4295163904 (4 GiB), and the text of a link 4095. The root directory belongs to root, and is there at once. Nothing has two names.\n\nA disk of version 2 has files of the names f002 to f511 in one directory, of at most 49152 bytes each, and N - 531 blocks for them.";

const MIGRATE_NOTES: &str =
    "Without NEW: to a disk of version 2 nothing is done, and one of version 3 is refused. All files stay, also where the program is killed or the power fails: the disk is then of either version.\n\nWith NEW: nothing is written to FILE, and until it ends no program can write it. The files of FILE come into the root directory of a tree, under their names, with their bytes and their times; they belong to root and have the mode 644. NEW is made as jnlfs make makes it, at NEW.part. Once all is stable and reads as it was written, it gets its name, and the number of files is printed. So a NEW that was made is whole. Where it is refused, as where NEW is there, no NEW is made. Where the program is killed, NEW.part may be left: remove it, and call it again.";

const GROW_NOTES: &str =
    "All files stay, with their handles and the numbers of their inodes, and the number of inodes stays too. The disk may be grown as often as is wanted. It is not served meanwhile: a disk that is served is refused.\n\nOne of 513 new blocks has the records that say who has the others. These records lie at the end of the disk, so a later growth moves them to the new end, 8 bytes for each block that came after the disk was made. So a growth has room for a copy of them: a block for each 512 that came since the disk was made, rounded up, is enough. The first growth takes 2 blocks at least.\n\nThe new blocks take room in the file system once they are written, where there may be none. On a block device they are written with zeros, and N is at most what the device has.\n\nWhere a growth fails, or is stopped by a kill or a loss of power, the disk has the same files, and its old number of blocks or the new one: call it again with the same N.";

const FIXED_INODES: &str = "a disk of version 2 has 512 inodes, and --inodes is of version 3 alone";

// The names of the arguments.
const BLOCKS: &str = "blocks";

const INODES: &str = "inodes";

const NEW: &str = "NEW";

const FORMAT: &str = "format";

const ALLOCATE: &str = "allocate";

const PORT: &str = "port";

const ADDRESS: &str = "address";

const ALLOW: &str = "allow";

const CONTROL: &str = "control";

const READ_ONLY: &str = "read-only";

const MIRROR: &str = "mirror";

const SQUASH: &str = "squash";

// The versions of the disks that are made.
const FLAT_VERSION: u64 = 2;

const TREE_VERSION: u64 = 3;

// The version where none is named.
const NEWEST: &str = "3";

/// The task that the words of the command line name.
#[derive(Drop)]
pub enum Subcommand<'w> {
    /// Make a disk without files in a new file.
    Make(NewDisk<'w>),
    /// Print whether the files of the disk in a file are sound.
    Check {
        path: &'w str,
    },
    /// Make the disk in a file one of version 2.
    Migrate {
        path: &'w str,
    },
    /// Write the flat files of a disk to a new one with a tree.
    MigrateToTree(Migration<'w>),
    /// Give the disk with a tree in a file more blocks.
    Grow {
        path: &'w str,
        blocks: u64,
    },
    /// Serve the files of the disk in a file so that clients mount them.
    Serve {
        service: Service<'w>,
        allowed: AllowedAddresses,
    },
    /// End the service at a socket.
    Stop {
        socket: &'w str,
    },
}

impl<'w> Subcommand<'w> {
    /// Reads the words of the command line, without the program's name.
    ///
    /// # Errors
    /// - `Words`: they ask for help or the version, or are no command.
    /// - `NoAddress`: the address is none of IP.
    /// - Those of `allowed_addresses`.
    /// - `NoCommand`: no subcommand can be made of them.
    /// - `NoMemory`: memory is refused.
    pub fn parse(alloc: Global, words: &'w [String]) -> Result<Subcommand<'w>, Fault<'w>> {
        let matches = command(alloc)?.try_get_matches_from(words)?;
        let Some((name, given)) = matches.subcommand() else {
            return Err(Fault::NoCommand);
        };
        match name {
            "make" => parse_make(given),
            "check" => Ok(Subcommand::Check {
                path: word(given, FILE)?,
            }),
            "migrate" => parse_migrate(given),
            "grow" => parse_grow(given),
            "serve" => Ok(Subcommand::Serve {
                service: parse_service(given)?,
                allowed: allowed_addresses(alloc, given.get_strs(ALLOW))?,
            }),
            "stop" => Ok(Subcommand::Stop {
                socket: word(given, CONTROL)?,
            }),
            _ => Err(Fault::NoCommand),
        }
    }
}

fn parse_make<'w>(given: &ArgMatches<'w>) -> Result<Subcommand<'w>, Fault<'w>> {
    let Some(blocks) = given.get_one::<u64>(BLOCKS) else {
        return Err(Fault::NoCommand);
    };
    let room = if given.get_flag(ALLOCATE) {
        Room::All
    } else {
        Room::Log
    };
    Ok(Subcommand::Make(NewDisk {
        path: word(given, FILE)?,
        blocks,
        files: parse_files(given)?,
        room,
    }))
}

// The files that a new disk is to have.
fn parse_files<'w>(given: &ArgMatches<'w>) -> Result<NewFiles, Fault<'w>> {
    let inodes = given.get_one::<u64>(INODES);
    match (given.get_one::<u64>(FORMAT), inodes) {
        (Some(TREE_VERSION), inodes) => Ok(NewFiles::Tree { inodes }),
        (Some(FLAT_VERSION), None) => Ok(NewFiles::Flat),
        (Some(FLAT_VERSION), Some(_)) => Err(Fault::NoSuchDisk { why: FIXED_INODES }),
        _ => Err(Fault::NoCommand),
    }
}

fn parse_migrate<'w>(given: &ArgMatches<'w>) -> Result<Subcommand<'w>, Fault<'w>> {
    let old = word(given, FILE)?;
    match given.get_str(NEW) {
        Some(new) => Ok(Subcommand::MigrateToTree(Migration {
            old,
            new,
            blocks: given.get_one::<u64>(BLOCKS),
            inodes: given.get_one::<u64>(INODES),
        })),
        None => Ok(Subcommand::Migrate { path: old }),
    }
}

fn parse_grow<'w>(given: &ArgMatches<'w>) -> Result<Subcommand<'w>, Fault<'w>> {
    let Some(blocks) = given.get_one::<u64>(BLOCKS) else {
        return Err(Fault::NoCommand);
    };
    Ok(Subcommand::Grow {
        path: word(given, FILE)?,
        blocks,
    })
}

fn parse_service<'w>(given: &ArgMatches<'w>) -> Result<Service<'w>, Fault<'w>> {
    let text = word(given, ADDRESS)?;
    let Ok(address) = text.parse::<IpAddr>() else {
        return Err(Fault::NoAddress { text });
    };
    let Some(port) = given.get_one::<u16>(PORT) else {
        return Err(Fault::NoCommand);
    };
    Ok(Service {
        path: word(given, FILE)?,
        address,
        port,
        control: given.get_str(CONTROL),
        is_read_only: given.get_flag(READ_ONLY),
        squash: given.get_flag(SQUASH),
        reads: if given.get_flag(MIRROR) {
            Reads::FromMemory
        } else {
            Reads::FromFile
        },
    })
}

// The grammar of the command line, from which its help is printed.
fn command<'w>(alloc: Global) -> Result<Command<'w>, AllocError> {
    program_command(alloc, PROGRAM, ABOUT, JNLFS_VERSIONS)?
        .subcommand(make_command(alloc)?)?
        .subcommand(check_command(alloc)?)?
        .subcommand(migrate_command(alloc)?)?
        .subcommand(grow_command(alloc)?)?
        .subcommand(serve_command(alloc)?)?
        .subcommand(stop_command(alloc)?)
}

fn make_command<'w>(alloc: Global) -> Result<Command<'w>, AllocError> {
    let allocate = flag_arg(
        alloc,
        ALLOCATE,
        "Writes zeros to every block, so that each has its room in the file system",
    );
    subcommand(
        alloc,
        "make",
        "Makes a disk without files, with a sealed log, in a new file",
        MAKE_NOTES,
    )
    .arg(file_arg(alloc, "The file to make"))?
    .arg(blocks_arg(alloc))?
    .arg(inodes_arg(alloc))?
    .arg(format_arg(alloc))?
    .arg(allocate)
}

fn check_command<'w>(alloc: Global) -> Result<Command<'w>, AllocError> {
    subcommand(
        alloc,
        "check",
        "Checks that the files of a disk are sound, and prints its version and their number, or that of the nodes of a tree",
        "Nothing is written to FILE.",
    )
    .arg(file_arg(alloc, "The file of the disk"))
}

fn migrate_command<'w>(alloc: Global) -> Result<Command<'w>, AllocError> {
    let new = Arg::new(alloc, NEW).help(
        "The file to make, for a disk of version 3 with the files of FILE",
    );
    subcommand(
        alloc,
        "migrate",
        "Makes a disk of version 1 one of version 2, with the same files, or with NEW writes the files of either to a new disk of version 3",
        MIGRATE_NOTES,
    )
    .arg(file_arg(alloc, "The file of the disk"))?
    .arg(new)?
    .arg(new_blocks_arg(alloc)?)?
    .arg(inodes_arg(alloc).requires_arg(NEW)?)
}

fn grow_command<'w>(alloc: Global) -> Result<Command<'w>, AllocError> {
    subcommand(
        alloc,
        "grow",
        "Gives a disk of version 3 more blocks, and prints their number",
        GROW_NOTES,
    )
    .arg(file_arg(alloc, "The file of the disk"))?
    .arg(grown_blocks_arg(alloc))
}

fn serve_command<'w>(alloc: Global) -> Result<Command<'w>, AllocError> {
    let read_only = flag_arg(
        alloc,
        READ_ONLY,
        "Opens FILE to read it alone, and answers each call that changes a file by NFS3ERR_ROFS",
    );
    let mirror = flag_arg(
        alloc,
        MIRROR,
        "Reads the whole disk into memory at the start, and answers each read from there",
    );
    let squash = flag_arg(
        alloc,
        SQUASH,
        "Gives root the rights of nobody, which only the service of a tree can",
    );
    subcommand(
        alloc,
        "serve",
        "Serves the files of a disk so that a Linux machine mounts them",
        SERVE_NOTES,
    )
    .arg(file_arg(alloc, "The file of the disk"))?
    .arg(port_arg(alloc))?
    .arg(address_arg(alloc))?
    .arg(allow_arg(alloc))?
    .arg(control_arg(alloc, "The socket to make, by which the service is ended"))?
    .arg(read_only)?
    .arg(mirror)?
    .arg(squash)
}

fn stop_command<'w>(alloc: Global) -> Result<Command<'w>, AllocError> {
    subcommand(
        alloc,
        "stop",
        "Ends the service at a socket",
        "It returns once all is stable, and the disk is closed and unlocked. Where the device has failed the status is 1.",
    )
    .arg(control_arg(alloc, "The socket of the service").required(true))
}

// The socket by which a service is ended.
fn control_arg<'w>(alloc: Global, help: &'w str) -> Arg<'w> {
    option_arg(alloc, CONTROL, "PATH", help)
}

// The number of blocks of a disk.
fn blocks_arg<'w>(alloc: Global) -> Arg<'w> {
    option_arg(
        alloc,
        BLOCKS,
        "N",
        "How many blocks of 4096 bytes the disk has, 645 to 4294967296; 532 to 33299 with --format 2",
    )
    .required(true)
    .value_parser(value_parser!(u64).range(532..=4294967296))
}

// The number of blocks of a disk to which files are written.
fn new_blocks_arg<'w>(alloc: Global) -> Result<Arg<'w>, AllocError> {
    option_arg(
        alloc,
        BLOCKS,
        "N",
        "How many blocks of 4096 bytes NEW has, 645 to 4294967296: by default a fiftieth more than FILE and 130",
    )
    .value_parser(value_parser!(u64).range(645..=4294967296))
    .requires_arg(NEW)
}

// The number of blocks of a disk that grows.
fn grown_blocks_arg<'w>(alloc: Global) -> Arg<'w> {
    option_arg(
        alloc,
        BLOCKS,
        "N",
        "How many blocks of 4096 bytes the disk has then, all in all, at most 4294967296",
    )
    .required(true)
    .value_parser(value_parser!(u64).range(645..=4294967296))
}

// The number of inodes of a disk with a tree.
fn inodes_arg<'w>(alloc: Global) -> Arg<'w> {
    option_arg(
        alloc,
        INODES,
        "I",
        "How many inodes it has, a multiple of 8 from 1024 to 134217728: by default an eighth of N, within 1024 and 1048576",
    )
    .value_parser(value_parser!(u64).range(1024..=134217728))
}

// The version of a disk.
fn format_arg<'w>(alloc: Global) -> Arg<'w> {
    option_arg(
        alloc,
        FORMAT,
        "VERSION",
        "The version of the disk: 3 with a tree of directories and files, 2 with flat files",
    )
    .default_value(NEWEST)
    .value_parser(value_parser!(u64).range(2..=3))
}

// The port to listen on.
fn port_arg<'w>(alloc: Global) -> Arg<'w> {
    option_arg(
        alloc,
        PORT,
        "P",
        "The port to listen on, or 0 for one that is free",
    )
    .required(true)
    .value_parser(value_parser!(u16))
}

// The address to listen on.
fn address_arg<'w>(alloc: Global) -> Arg<'w> {
    option_arg(
        alloc,
        ADDRESS,
        "A",
        "The address of this machine to listen on; whoever reaches it reads and writes all files",
    )
    .default_value("127.0.0.1")
}

// The clients that are served.
fn allow_arg<'w>(alloc: Global) -> Arg<'w> {
    option_arg(
        alloc,
        ALLOW,
        "ADDRESS/BITS",
        "Serves only clients whose address begins with the first BITS bits of this one, as in 10.0.0.0/8; may be given several times",
    )
    .action(ArgAction::Append)
}
