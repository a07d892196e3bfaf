//! Options of sockets that std doesn't have: when the system gives a silent peer up (tcp(7) of Linux).
use libc::net::{
    IPPROTO_TCP, SO_KEEPALIVE, SOL_SOCKET, TCP_KEEPCNT, TCP_KEEPIDLE, TCP_KEEPINTVL,
    TCP_USER_TIMEOUT, setsockopt,
};
use std::net::TcpStream;
use std::os::fd::AsRawFd;

/// After so many seconds without octets of a peer the system asks whether it is there, and then so often.
const QUIET_SECONDS: i32 = 60;

const PROBE_SECONDS: i32 = 15;

/// After so many probes without an answer the peer is given up.
const PROBES: i32 = 4;

/// A peer is given up that takes nothing of what was sent for so many milliseconds. It also bounds the probes.
const UNTAKEN_MILLISECONDS: i32 = 120_000;

/// The value of an option that is a number.
fn value_of(number: i32) -> [u8; 16] {
    let mut value = [0u8; 16];
    value[..4].copy_from_slice(&number.to_ne_bytes());
    value
}

/// Has the system give up a peer that has vanished, within two minutes. Reads and writes then fail. A peer whose system answers is
/// kept, however long it is quiet. Answers whether the system took all of that.
pub(crate) fn give_up_vanished(stream: &TcpStream) -> bool {
    let fd = stream.as_raw_fd();
    let on = value_of(1);
    let quiet = value_of(QUIET_SECONDS);
    let between = value_of(PROBE_SECONDS);
    let probes = value_of(PROBES);
    let untaken = value_of(UNTAKEN_MILLISECONDS);
    unsafe {
        setsockopt(fd, SOL_SOCKET, SO_KEEPALIVE, &on, 4) == 0
            && setsockopt(fd, IPPROTO_TCP, TCP_KEEPIDLE, &quiet, 4) == 0
            && setsockopt(fd, IPPROTO_TCP, TCP_KEEPINTVL, &between, 4) == 0
            && setsockopt(fd, IPPROTO_TCP, TCP_KEEPCNT, &probes, 4) == 0
            && setsockopt(fd, IPPROTO_TCP, TCP_USER_TIMEOUT, &untaken, 4) == 0
    }
}
