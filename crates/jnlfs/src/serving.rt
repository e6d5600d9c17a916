// The files of a disk are served so that clients mount them.

use crate::command::PROGRAM;
use crate::disks::{HeldFiles, OpenedDisk, OpenedToRead, open, share};
use crate::unserved::unserved;
use journal_clients::{AllowedAddresses, Control, Endpoint, Reads, ServiceFault};
use journal_commands::{Fault, make_socket, print_line, remove_socket};
use journal_connections::file_numbers;
use journal_mount3::{Exported, ExportedToRead};
use journal_program::{Settled, SharedDisk};
use journal_treeservice::{Asked, TreeCut};
use std::alloc::Global;
use std::fs::{File, Files};
use std::io::Write;
use std::net::{IpAddr, Net, TcpListener, TcpStream};
use std::sync::Wait;
use std::thread::Threads;
use std::time::Clock;

// How many files are kept for all but connections: the disk, listeners, outputs, what is watched,
// and what a further connection takes for a moment.
const OWN_FILES: u64 = 24;

// How many connections are open beside a visitor.
const MOST_CONNECTIONS: u64 = 1024;

/// A service that is asked for.
#[derive(Clone, Copy)]
pub struct Service<'w> {
    /// The path of the file that has the disk.
    pub path: &'w str,
    /// The address of this machine at which clients reach it.
    pub address: IpAddr,
    /// The port there, or 0 for one that is free.
    pub port: u16,
    /// The path of the socket by which it is ended, where there is to be one.
    pub control: Option<&'w str>,
    /// True if the disk is only read.
    pub is_read_only: bool,
    /// Where reads of the disk come from.
    pub reads: Reads,
    /// True if root has the rights of nobody.
    pub squash: bool,
}

// The disk of a service, and its files.
#[derive(Drop)]
struct Served {
    disk: ServedDisk,
    files: HeldFiles,
}

// The disk of a service.
#[derive(Drop)]
enum ServedDisk {
    // It may be written, and no other program uses it.
    Written(Settled),
    // It is only read, as by others.
    Read(SharedDisk),
}

/// Serves the files of the disk in a file, of each version, so that clients mount them: NFS and
/// MOUNT in their versions 3 (RFC 1813). Prints the port before the first connection is accepted,
/// and that it has stopped once a client has ended it by its socket. All is stable then, the disk
/// is closed and unlocked, and the socket is gone. A line of `faults` says whose connections are
/// taken, where not all are. Where the address is not one that this machine alone reaches, another
/// says what that means, and so does one where the system lets the program have fewer files open
/// than are needed for all connections.
///
/// The connection of a client whose address is not allowed is closed at once. How many these were
/// is printed at the end.
///
/// Where the disk is only read, no byte of it is written, other services that only read it may have
/// it too, and each call that asks to change a file is answered by NFS3ERR_ROFS.
///
/// Where the device fails, the calls under way are answered, and the service ends by
/// `DeviceFailed`.
///
/// # Errors
/// - Those of `open`, or of `share`. `NoSquash`: root is to be nobody, and the disk has no tree.
///   `Refused`: the files are not sound. `CannotListen`: the address or the port is not to be had.
///   `File`: the socket is not. Nothing listens then, and no file was changed.
/// - `DeviceFailed`: the device has failed.
pub fn serve<
    'w,
    R: Files<File = File>
        + Net<Listener = TcpListener, Stream = TcpStream>
        + Clock
        + Threads
        + Wait
        + Sync,
    O: Write,
    E: Write,
>(
    rt: &R,
    alloc: Global,
    service: Service<'w>,
    allowed: &AllowedAddresses,
    output: &mut O,
    faults: &mut E,
) -> Result<(), Fault<'w>> {
    let served = open_served(rt, alloc, service)?;
    let Some(socket) = service.control else {
        let asked = ask_for(service, allowed, None, faults);
        return export(rt, alloc, served, service, asked, output, faults);
    };
    let control = open_control(rt, alloc, socket)?;
    let asked = ask_for(service, allowed, Some(&control), faults);
    let ended = export(rt, alloc, served, service, asked, output, faults);
    remove_socket(rt, socket);
    control.answer(rt, ended.is_ok());
    ended?;
    print_line(output, "stopped", "")
}

// Opens the disk of the service.
fn open_served<'w, R: Files<File = File>>(
    rt: &R,
    alloc: Global,
    service: Service<'w>,
) -> Result<Served, Fault<'w>> {
    let path = service.path;
    let served = if service.is_read_only {
        let OpenedToRead { disk, files } = share(rt, alloc, path)?;
        Served {
            disk: ServedDisk::Read(disk),
            files,
        }
    } else {
        let OpenedDisk { disk, files } = open(rt, alloc, path)?;
        Served {
            disk: ServedDisk::Written(disk),
            files,
        }
    };
    match served.files {
        HeldFiles::Flat if service.squash => Err(Fault::NoSquash { path }),
        _ => Ok(served),
    }
}

// The service that is asked for, of a disk. It is said who may use the files.
fn ask_for<'c, E: Write>(
    service: Service<'_>,
    allowed: &'c AllowedAddresses,
    control: Option<&'c Control>,
    faults: &mut E,
) -> Asked<'c> {
    let connections = most_connections(faults);
    tell_users(service, allowed, faults);
    Asked {
        reads: service.reads,
        endpoint: Endpoint {
            address: service.address,
            port: service.port,
            connections,
            allowed,
        },
        control,
        squash: service.squash,
    }
}

// Serves the files of the disk until the service is ended by the control.
fn export<
    'w,
    R: Files<File = File>
        + Net<Listener = TcpListener, Stream = TcpStream>
        + Clock
        + Threads
        + Wait
        + Sync,
    O: Write,
    E: Write,
>(
    rt: &R,
    alloc: Global,
    served: Served,
    service: Service<'w>,
    asked: Asked<'_>,
    output: &mut O,
    faults: &mut E,
) -> Result<(), Fault<'w>> {
    let Served { disk, files } = served;
    let ended = match files {
        HeldFiles::Flat => export_flat(rt, alloc, disk, asked, output, faults),
        HeldFiles::Tree(cut) => export_tree(rt, alloc, disk, cut, asked, output, faults),
    };
    match ended {
        Ok(()) => Ok(()),
        Err(why) => Err(unserved(service.path, why)),
    }
}

// Serves flat files.
fn export_flat<
    R: Files<File = File>
        + Net<Listener = TcpListener, Stream = TcpStream>
        + Clock
        + Threads
        + Wait
        + Sync,
    O: Write,
    E: Write,
>(
    rt: &R,
    alloc: Global,
    disk: ServedDisk,
    asked: Asked<'_>,
    output: &mut O,
    faults: &mut E,
) -> Result<(), ServiceFault> {
    let Asked {
        reads,
        endpoint,
        control,
        ..
    } = asked;
    match disk {
        ServedDisk::Written(disk) => journal_service::export::<Exported, R, O, E>(
            rt, alloc, disk, reads, endpoint, control, output, faults,
        ),
        ServedDisk::Read(disk) => journal_service::export_to_read::<ExportedToRead, R, O, E>(
            rt, alloc, disk, reads, endpoint, control, output, faults,
        ),
    }
}

// Serves a tree.
fn export_tree<
    R: Net<Listener = TcpListener, Stream = TcpStream> + Clock + Threads + Wait + Sync,
    O: Write,
    E: Write,
>(
    rt: &R,
    alloc: Global,
    disk: ServedDisk,
    cut: TreeCut,
    asked: Asked<'_>,
    output: &mut O,
    faults: &mut E,
) -> Result<(), ServiceFault> {
    match disk {
        ServedDisk::Written(disk) => {
            journal_treeservice::export(rt, alloc, disk, cut, asked, output, faults)
        }
        ServedDisk::Read(disk) => {
            journal_treeservice::export_to_read(rt, alloc, disk, cut, asked, output, faults)
        }
    }
}

// How many connections are open beside a visitor: fewer where the system lets the program have
// fewer files open, and then it is said.
fn most_connections<E: Write>(faults: &mut E) -> u64 {
    let Some(files) = file_numbers() else {
        return MOST_CONNECTIONS;
    };
    let most = files.saturating_sub(OWN_FILES).max(1);
    if most >= MOST_CONNECTIONS {
        return MOST_CONNECTIONS;
    }
    // The service does not depend on whether this can be printed.
    let _ = writeln!(
        faults,
        "{PROGRAM}: the system lets it open {files} files, so {most} connections and one visitor are open at most"
    );
    most
}

// Says who may use the files, where not all clients may, or where more than this machine reaches
// the address. The service does not depend on whether that can be printed.
fn tell_users<E: Write>(service: Service<'_>, allowed: &AllowedAddresses, faults: &mut E) {
    let from = match allowed {
        AllowedAddresses::All => "",
        AllowedAddresses::Of(_) => {
            let _ = writeln!(
                faults,
                "{PROGRAM}: only connections from {allowed} are taken"
            );
            " from there"
        }
    };
    let address = service.address;
    if address.is_loopback() {
        return;
    }
    let uses = if service.is_read_only {
        "reads"
    } else {
        "reads and writes"
    };
    let _ = writeln!(
        faults,
        "{PROGRAM}: whoever reaches {address}{from} {uses} all files of {}",
        service.path
    );
}

// Makes the socket by which the service is ended.
fn open_control<'w, R: Files + Net>(
    rt: &R,
    alloc: Global,
    socket: &'w str,
) -> Result<Control, Fault<'w>> {
    let listener = match make_socket(rt, alloc, socket) {
        Ok(listener) => listener,
        Err(why) => return Err(Fault::File { path: socket, why }),
    };
    match Control::over(listener) {
        Ok(control) => Ok(control),
        Err(why) => {
            remove_socket(rt, socket);
            Err(Fault::File { path: socket, why })
        }
    }
}
