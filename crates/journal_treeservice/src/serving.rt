// A tree in a file is served over TCP.
ghost use Rattle.std.specs.Prelude.{◌≡◌, IsTrue};
ghost use Rattle.journal_disk.specs.Disks.{IsSettled};
ghost use Rattle.journal_treestore.specs.Places.{shape_of, IsCut};
ghost use Rattle.journal_treeobjects.specs.Maps.{IsWhole};

use crate::clients::TreeClients;
use crate::cutting::TreeCut;
use crate::hints::StoreHints;
use crate::looking::Looker;
use crate::mounting::{close, mount, slot_cell};
use journal_clients::{
    Access, Control, Endpoint, Explained, Plan, Reads, ServiceFault, VisitsByClient, ended, mirror,
    moment_of_mount, serve_by_pool, verifier_of,
};
use journal_disk::BlockDisk;
use journal_history::{Book, Naming};
use journal_lockmap::SlotCell;
use journal_mirror::Mirror;
use journal_nfs3_wire::Verifier;
use journal_program::{Settled, SharedDisk, SizedDisk};
use journal_treefs::TreeStore;
use journal_treerule::SoundTree;
use journal_treeserver::{Export, FreeHints, ReplyTable, TreeServer};
use journal_treestore::Cut;
use journal_world::Refusal;
use std::alloc::Global;
use std::io::Write;
use std::marker::Brand;
use std::net::{Net, TcpListener, TcpStream};
use std::sync::Wait;
use std::thread::Threads;
use std::time::Clock;

/// A service that is asked for.
#[derive(Clone, Copy)]
pub struct Asked<'c> {
    /// Where reads of the disk come from.
    pub reads: Reads,
    /// Where clients reach it.
    pub endpoint: Endpoint<'c>,
    /// The control by which it is ended, if there is one.
    pub control: Option<&'c Control>,
    /// True if root has the rights of nobody.
    pub squash: bool,
}

// A service, and whether it may write its disk.
#[derive(Clone, Copy)]
struct Service<'c> {
    asked: Asked<'c>,
    access: Access,
}

/// Serves the tree of a disk that is cut so, until a client asks for its end by the control, if
/// there is one. It prints the port before the first connection is taken. When it has ended all is
/// stable, and the disk is closed and unlocked. Where the clock cannot be read, a fault says so,
/// and the disk is served all the same.
///
/// # Errors
/// - `DeviceFailed`: the device failed. The calls under way were answered.
/// - `Refused`: J7 `BadLog`, where its log is not well formed; J8 `BadSuper`, where it has no sound
///   tree that is cut so; and all else that a mount or a close is refused by.
/// - `CannotListen`: the port is not to be had.
/// - `CannotWrite`: the output fails.
pub fn export<
    R: Net<Listener = TcpListener, Stream = TcpStream> + Clock + Threads + Wait + Sync,
    O: Write,
    E: Write,
>(
    rt: &R,
    alloc: Global,
    disk: Settled,
    cut: TreeCut,
    asked: Asked<'_>,
    output: &mut O,
    faults: &mut E,
) -> Result<(), ServiceFault> {
    let service = Service {
        asked,
        access: Access::ReadWrite,
    };
    let disk = carry_out(rt, alloc, disk, cut, service, output, faults)?;
    match Settled::by_barrier(disk) {
        Ok(_) => Ok(()),
        Err(disk) => Err(ServiceFault::Refused(Refusal::DeviceFailed(())).or_of_device(disk)),
    }
}

/// Serves the tree of the disk as `export` does, and only reads it. Programs that only read it may
/// have it too. Each call that would change the tree is answered by NFS3ERR_ROFS.
///
/// # Errors
/// Those of `export`.
pub fn export_to_read<
    R: Net<Listener = TcpListener, Stream = TcpStream> + Clock + Threads + Wait + Sync,
    O: Write,
    E: Write,
>(
    rt: &R,
    alloc: Global,
    disk: SharedDisk,
    cut: TreeCut,
    asked: Asked<'_>,
    output: &mut O,
    faults: &mut E,
) -> Result<(), ServiceFault> {
    let service = Service {
        asked,
        access: Access::ReadOnly,
    };
    let disk = Settled::unwritten(disk.disk());
    carry_out(rt, alloc, disk, cut, service, output, faults)?;
    Ok(())
}

// Serves the tree of the disk, and gives it up.
fn carry_out<
    R: Net<Listener = TcpListener, Stream = TcpStream> + Clock + Threads + Wait + Sync,
    O: Write,
    E: Write,
>(
    rt: &R,
    alloc: Global,
    settled: Settled,
    cut: TreeCut,
    service: Service<'_>,
    output: &mut O,
    faults: &mut E,
) -> Result<SizedDisk, ServiceFault> {
    let cut = cut.cut;
    let book: Book<SoundTree> = Book::open::<()>().unwrap();
    let cell = slot_cell(alloc)?;
    match service.asked.reads {
        Reads::FromFile => serve_mounted::<SizedDisk, Brand, R, O, E>(
            rt,
            alloc,
            &book,
            cell,
            cut,
            settled.disk(),
            service,
            output,
            faults,
        ),
        Reads::FromMemory => {
            let disk = mirror(alloc, settled)?;
            let mirror = serve_mounted::<Mirror<SizedDisk>, Brand, R, O, E>(
                rt, alloc, &book, cell, cut, disk, service, output, faults,
            )?;
            Ok(mirror.into_disk())
        }
    }
}

// Mounts the disk, serves its tree, and gives it up, with all commits stable. Of two faults the
// first is answered.
fn serve_mounted<
    D: BlockDisk + Explained + Drop + Send,
    J: Naming + Send + Sync,
    R: Net<Listener = TcpListener, Stream = TcpStream> + Clock + Threads + Wait + Sync,
    O: Write,
    E: Write,
>(
    rt: &R,
    alloc: Global,
    book: &Book<SoundTree>,
    cell: SlotCell,
    cut: Cut,
    disk: D,
    service: Service<'_>,
    output: &mut O,
    faults: &mut E,
) -> Result<D, ServiceFault>
    requires book { book.now ≡ J.book }
    requires cell { cell ≡ J.cell }
    requires cut { IsCut cut }
    requires whole { IsWhole cut }
    requires layout { J.layout ≡ shape_of cut }
    requires settled { IsTrue (D.state disk).honest → IsSettled (D.state disk).past }
{
    let store: TreeStore<D, SoundTree, J> = mount(alloc, book, cell, cut, disk)?;
    let verifier = Verifier(verifier_of(moment_of_mount(rt, faults)));
    let served = serve_tree(rt, alloc, &store, cut, verifier, service, output);
    ended(served, close(rt, store), true)
}

// Serves the tree of a mounted disk until the service ends.
fn serve_tree<
    'b,
    D: BlockDisk + Send,
    J: Naming + Send + Sync,
    R: Net<Listener = TcpListener, Stream = TcpStream> + Clock + Threads + Wait + Sync,
    O: Write,
>(
    rt: &R,
    alloc: Global,
    store: &TreeStore<'b, D, SoundTree, J>,
    cut: Cut,
    verifier: Verifier,
    service: Service<'_>,
    output: &mut O,
) -> Result<(), ServiceFault>
    requires possible { IsCut cut }
    requires own { store.now.cut ≡ cut }
{
    let journal = store.journal();
    let Ok(replies) = ReplyTable::new(alloc) else {
        return Err(ServiceFault::Refused(Refusal::NoMemory));
    };
    let disk = match Looker::new(rt, alloc, journal, cut)?.disk_number(rt) {
        Ok(disk) => disk,
        Err(why) => return Err(ServiceFault::Refused(why)),
    };
    let hints = StoreHints::new(rt, alloc, journal, cut, rt)?;
    let Service { asked, access } = service;
    let server = TreeServer {
        store,
        hints: &hints,
        replies: &replies,
        cut,
        export: Export {
            disk,
            squash: asked.squash,
            is_read_only: access == Access::ReadOnly,
            verifier,
            client: None,
        },
    };
    let plan = Plan {
        endpoint: asked.endpoint,
        control: asked.control,
        access,
    };
    serve_clients(rt, alloc, plan, &server, output)
}

// Serves clients by a server until the service ends.
fn serve_clients<
    'b,
    D: BlockDisk + Send,
    J: Naming + Send + Sync,
    H: FreeHints + Sync,
    R: Net<Listener = TcpListener, Stream = TcpStream> + Clock + Threads + Wait + Sync,
    O: Write,
>(
    rt: &R,
    alloc: Global,
    plan: Plan<'_>,
    server: &TreeServer<'_, 'b, D, SoundTree, J, H>,
    output: &mut O,
) -> Result<(), ServiceFault> {
    let journal = server.store.journal();
    let clients = TreeClients(server);
    let visits = VisitsByClient::new(alloc, journal, &clients);
    serve_by_pool(rt, alloc, plan, journal, &visits, output)
}
