//! Lines on standard error for people, beside what a program answers. No contract sees them, and one that can't be written is left out.
use std::io;
use std::net::SocketAddr;

/// Says what failed, and why, in the system's words: `cannot open /etc/schema: no such file or directory (os error 2)`.
pub fn say_fault(rt: &HostRuntime, what: &str, name: &str, error: &io::Error) {
    let _ = eprintln!(rt; "{what} {name}: {error}");
}

/// Says at which address connections come in from now on: `listening 127.0.0.1:9339`.
pub(crate) fn say_listening(rt: &HostRuntime, address: &SocketAddr) {
    let _ = eprintln!(rt; "listening {address}");
}
