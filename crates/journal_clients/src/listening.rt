// A port is listened at.

use crate::fault::ServiceFault;
use crate::printing::print_line;
use std::io::Write;
use std::net::{IpAddr, Net, TcpListener, TcpStream};

/// Listens at a port, or at one that is free for 0.
///
/// # Errors
/// - `CannotListen`: the address or the port is not to be had.
pub fn listen_at<R: Net<Listener = TcpListener, Stream = TcpStream>>(
    rt: &R,
    address: IpAddr,
    port: u16,
) -> Result<TcpListener, ServiceFault> {
    match TcpListener::bind(rt, (address, port)) {
        Ok(listener) => Ok(listener),
        Err(_) => Err(ServiceFault::CannotListen),
    }
}

/// The port of a listener.
///
/// # Errors
/// - `CannotListen`: the system does not tell it.
pub fn port_of(listener: &TcpListener) -> Result<u16, ServiceFault> {
    match listener.local_addr() {
        Ok(there) => Ok(there.port()),
        Err(_) => Err(ServiceFault::CannotListen),
    }
}

/// Prints the port, before the first connection is accepted.
///
/// # Errors
/// - `CannotWrite`: the output failed.
pub fn tell_port<O: Write>(port: u16, output: &mut O) -> Result<(), ServiceFault> {
    print_line(output, "listening", u64::from(port))
}
