// A socket in the file system that is never open to others.

use std::alloc::Global;
use std::fs::{DirBuilder, Files, Permissions};
use std::io::ErrorKind;
use std::net::Net;
use std::os::unix::fs::{DirBuilderExt, FileTypeExt, PermissionsExt};
use std::os::unix::net::{UnixListener, UnixStream};
use std::{fs, io};

// Who may use the folder in which the socket is made, and the socket: its owner.
const FOLDER_MODE: u32 = 0o700;

const SOCKET_MODE: u32 = 0o600;

// How many names are tried for the folder. A program that was killed may have left some.
const FOLDERS: u32 = 1000;

/// Listens at the path. A socket there whose program is gone is replaced.
///
/// The socket is made in a folder beside the path that only its owner can use, gets a mode by which
/// only its owner can open it, and is renamed to the path then. So nobody else can open it at any
/// time.
///
/// # Errors
/// The path keeps what it has.
/// - `AddrInUse`: a program listens there.
/// - `AlreadyExists`: anything but a socket is there, or no name is free for the folder.
/// - The system's reason: the socket cannot be made or renamed, or memory is refused.
pub fn make_socket<R: Files + Net>(rt: &R, alloc: Global, path: &str) -> io::Result<UnixListener> {
    require_free(rt, path)?;
    let folder = make_folder(rt, alloc, path)?;
    let inside = format!(in alloc; "{folder}/s")?;
    let made = make(rt, inside.as_str(), path);
    // The first fault is answered, whether these succeed or not.
    if made.is_err() {
        let _ = fs::remove_file(rt, inside.as_str());
    }
    let _ = fs::remove_dir(rt, folder.as_str());
    made
}

/// Removes the socket. Where that is refused it stays, as the socket of a program that is gone.
pub fn remove_socket<R: Files>(rt: &R, path: &str) {
    let _ = fs::remove_file(rt, path);
}

// Makes a folder beside the path that only its owner can use, and answers its name.
fn make_folder<R: Files>(rt: &R, alloc: Global, path: &str) -> io::Result<String> {
    for number in 0..FOLDERS {
        let folder = format!(in alloc; "{path}.{number}")?;
        match DirBuilder::new()
            .mode(FOLDER_MODE)
            .create(rt, folder.as_str())
        {
            Ok(()) => return Ok(folder),
            Err(e) if e.kind() == ErrorKind::AlreadyExists => {}
            Err(e) => return Err(e),
        }
    }
    Err(io::Error::from(ErrorKind::AlreadyExists))
}

// Makes the socket inside the folder, and renames it to the path.
fn make<R: Files + Net>(rt: &R, inside: &str, path: &str) -> io::Result<UnixListener> {
    let listener = UnixListener::bind(rt, inside)?;
    fs::set_permissions(rt, inside, Permissions::from_mode(SOCKET_MODE))?;
    fs::rename(rt, inside, path)?;
    Ok(listener)
}

// Refuses a path where anything is but a socket whose program is gone.
fn require_free<R: Files + Net>(rt: &R, path: &str) -> io::Result<()> {
    let found = match fs::symlink_metadata(rt, path) {
        Ok(found) => found,
        Err(e) if e.kind() == ErrorKind::NotFound => return Ok(()),
        Err(e) => return Err(e),
    };
    if !found.file_type().is_socket() {
        return Err(io::Error::from(ErrorKind::AlreadyExists));
    }
    match UnixStream::connect(rt, path) {
        Ok(_) => Err(io::Error::from(ErrorKind::AddrInUse)),
        Err(e) if e.kind() == ErrorKind::ConnectionRefused => Ok(()),
        Err(e) => Err(e),
    }
}
