// The file service: the files of a disk in a file, over TCP.
ghost use Rattle.std.specs.Prelude.{◌≡◌, IsTrue};
ghost use Rattle.journal_world.specs.Files.{files};
ghost use Rattle.journal_disk.specs.Disks.{IsSettled};

use crate::file;
use crate::front_end::{FrontEnd, Mount, serve_files};
use crate::mounting::{Tried, mount, slot_cell, unmirrored};
use crate::workers::FourWorkers;
use journal_clients::{
    Access, Control, Endpoint, Explained, Plan, Reads, ServiceFault, begin_session, ended, give_up,
    mirror, moment_of_mount, verifier_of,
};
use journal_disk::BlockDisk;
use journal_filestore::FileStore;
use journal_history::{Book, Naming};
use journal_inode::{SoundFiles, Version, VersionOne, VersionTwo};
use journal_lockmap::SlotCell;
use journal_mirror::Mirror;
use journal_nfs3::Verifier;
use journal_program::{Settled, SharedDisk, SizedDisk};
use journal_server::{FileProtocol, NineProcedures, Programs};
use journal_world::{Layout, Refusal, Refused};
use std::alloc::Global;
use std::fs::{File, Files};
use std::io::Write;
use std::marker::Brand;
use std::net::{Net, TcpListener, TcpStream};
use std::sync::Wait;
use std::thread::Threads;
use std::time::Clock;

/// A file service that is asked for.
#[derive(Clone, Copy)]
pub struct Service<'w> {
    /// Where the file is that has the disk.
    pub path: &'w str,
    /// The port to which connections come, or 0 for one that is free.
    pub port: u16,
    /// How many connections are served.
    pub connections: u64,
    /// Where reads of the disk come from.
    pub reads: Reads,
}

/// Serves the files of the disk, of either version, by the programs `P`, until a client asks for
/// its end by the control, if there is one. It prints the port before the first connection is
/// taken. When it has ended all is stable, and the disk is closed and unlocked.
///
/// # Errors
/// - `DeviceFailed`: the device failed. The calls under way were answered.
/// - Those of `serve`.
pub fn export<
    P: Programs + FileProtocol<VersionTwo> + FileProtocol<VersionOne> + Sync + Drop,
    R: Files<File = File>
        + Net<Listener = TcpListener, Stream = TcpStream>
        + Clock
        + Threads
        + Wait
        + Sync,
    O: Write,
    E: Write,
>(
    rt: &R,
    alloc: Global,
    disk: Settled,
    reads: Reads,
    endpoint: Endpoint<'_>,
    control: Option<&Control>,
    output: &mut O,
    faults: &mut E,
) -> Result<(), ServiceFault> {
    let front = FrontEnd::Pool(Plan {
        endpoint,
        control,
        access: Access::ReadWrite,
    });
    let disk = carry_out::<P, R, O, E>(rt, alloc, disk, reads, front, output, faults)?;
    match Settled::by_barrier(disk) {
        Ok(_) => Ok(()),
        Err(disk) => Err(ServiceFault::Refused(Refusal::DeviceFailed(())).or_of_device(disk)),
    }
}

/// Serves the files of the disk as `export` does, and only reads it. Programs that only read it may
/// have it too. Nothing is written to it, so `P` is to change no file: a call that does so all the
/// same fails as where the device has failed.
///
/// # Errors
/// Those of `export`.
pub fn export_to_read<
    P: Programs + FileProtocol<VersionTwo> + FileProtocol<VersionOne> + Sync + Drop,
    R: Files<File = File>
        + Net<Listener = TcpListener, Stream = TcpStream>
        + Clock
        + Threads
        + Wait
        + Sync,
    O: Write,
    E: Write,
>(
    rt: &R,
    alloc: Global,
    disk: SharedDisk,
    reads: Reads,
    endpoint: Endpoint<'_>,
    control: Option<&Control>,
    output: &mut O,
    faults: &mut E,
) -> Result<(), ServiceFault> {
    let disk = Settled::unwritten(disk.disk());
    let front = FrontEnd::Pool(Plan {
        endpoint,
        control,
        access: Access::ReadOnly,
    });
    carry_out::<P, R, O, E>(rt, alloc, disk, reads, front, output, faults)?;
    Ok(())
}

/// Serves the files of the disk in the file, of either version, and prints the port before the
/// first connection is taken, and how many were taken once all is stable and the disk is given up.
/// Where the clock cannot be read, that is told as a fault, and the disk is served all the same.
///
/// # Errors
/// - `File`, `Device`, `Label`: those of a disk that is opened to be written.
/// - `Refused`: J7 `BadLog`, where its log is not well formed; J8 `BadSuper`, where its files are
///   sound in no version; and all else that a mount or a close is refused by.
/// - `CannotListen`: the port is not to be had.
/// - `CannotWrite`: the output fails.
pub fn serve<
    R: Files<File = File>
        + Net<Listener = TcpListener, Stream = TcpStream>
        + Clock
        + Threads
        + Wait
        + Sync,
    O: Write,
    E: Write,
>(
    rt: &R,
    alloc: Global,
    service: Service<'_>,
    output: &mut O,
    faults: &mut E,
) -> Result<(), ServiceFault> {
    let Service {
        path,
        port,
        connections,
        reads,
    } = service;
    let front = FrontEnd::Workers(FourWorkers { port, connections });
    let disk = file::open(rt, alloc, path)?;
    let disk = carry_out::<NineProcedures, R, O, E>(rt, alloc, disk, reads, front, output, faults)?;
    give_up(file::settled(disk)?, output, "served", connections)
}

// Serves the files of the disk, of either version, by a front end.
fn carry_out<
    P: Programs + FileProtocol<VersionTwo> + FileProtocol<VersionOne> + Sync + Drop,
    R: Files<File = File>
        + Net<Listener = TcpListener, Stream = TcpStream>
        + Clock
        + Threads
        + Wait
        + Sync,
    O: Write,
    E: Write,
>(
    rt: &R,
    alloc: Global,
    disk: Settled,
    reads: Reads,
    front: FrontEnd<'_>,
    output: &mut O,
    faults: &mut E,
) -> Result<SizedDisk, ServiceFault> {
    match serve_in::<P, VersionTwo, R, O, E>(rt, alloc, disk, reads, front, output, faults)? {
        Tried::Sound(disk) => Ok(disk),
        Tried::Other(disk) => {
            serve_in::<P, VersionOne, R, O, E>(
                rt, alloc, disk, reads, front, output, faults,
            )?.sound()
        }
    }
}

// Serves the files of the disk, where they are sound in a version, and gives it up.
fn serve_in<
    P: Programs + FileProtocol<V> + Sync + Drop,
    V: Version + Send + Sync,
    R: Net<Listener = TcpListener, Stream = TcpStream> + Clock + Threads + Wait + Sync,
    O: Write,
    E: Write,
>(
    rt: &R,
    alloc: Global,
    settled: Settled,
    reads: Reads,
    front: FrontEnd<'_>,
    output: &mut O,
    faults: &mut E,
) -> Result<Tried<SizedDisk>, ServiceFault> {
    let book: Book<SoundFiles<V>> = Book::open::<()>().unwrap();
    let cell = slot_cell(alloc)?;
    match reads {
        Reads::FromFile => serve_mounted::<P, SizedDisk, Brand, V, R, O, E>(
            rt,
            alloc,
            &book,
            cell,
            settled.disk(),
            front,
            output,
            faults,
        ),
        Reads::FromMemory => {
            let disk = mirror(alloc, settled)?;
            let tried = serve_mounted::<P, Mirror<SizedDisk>, Brand, V, R, O, E>(
                rt, alloc, &book, cell, disk, front, output, faults,
            )?;
            Ok(unmirrored(tried))
        }
    }
}

// Mounts the disk, serves its files, and gives it up, with all commits stable. Of two faults the
// first is told.
fn serve_mounted<
    P: Programs + FileProtocol<V> + Sync + Drop,
    D: BlockDisk + Explained + Drop + Send,
    J: Naming + Send + Sync,
    V: Version + Send + Sync,
    R: Net<Listener = TcpListener, Stream = TcpStream> + Clock + Threads + Wait + Sync,
    O: Write,
    E: Write,
>(
    rt: &R,
    alloc: Global,
    book: &Book<SoundFiles<V>>,
    cell: SlotCell,
    disk: D,
    front: FrontEnd<'_>,
    output: &mut O,
    faults: &mut E,
) -> Result<Tried<D, D>, ServiceFault>
    requires book { book.now ≡ J.book }
    requires cell { cell ≡ J.cell }
    requires layout { J.layout ≡ files (D.state disk).past.size }
    requires settled { IsTrue (D.state disk).honest → IsSettled (D.state disk).past }
{
    let Some(layout) = Layout::new(disk.size()) else {
        // It is refused as a mount refuses it.
        return Ok(Tried::Other(Settled::unwritten(disk)));
    };
    let files: FileStore<D, J, V> = match mount(alloc, book, cell, disk)? {
        Tried::Sound(files) => files,
        Tried::Other(disk) => return Ok(Tried::Other(disk)),
    };
    let mount = Mount {
        layout,
        verifier: Verifier(verifier_of(moment_of_mount(rt, faults))),
    };
    let served = serve_files::<P, D, J, V, R, O>(rt, alloc, front, &files, mount, output);
    let closed = close(rt, files);
    let disk = ended(served, closed, front.ends_by_device())?;
    Ok(Tried::Sound(disk))
}

/// Gives the disk up.
pub(crate) fn close<'b, D: BlockDisk + Drop, J: Naming, V: Version, W: Wait>(
    rt: &W,
    files: FileStore<'b, D, J, V>,
) -> Result<D, ServiceFault> {
    let mut session = begin_session(rt, files.journal())?;
    match files.close(&mut session) {
        Ok(disk) => Ok(disk),
        Err(Refused { refusal, .. }) => Err(ServiceFault::refused(refusal)),
    }
}
