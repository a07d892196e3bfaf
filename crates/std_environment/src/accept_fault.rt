use libc::{EBADF, ECONNABORTED, ECONNRESET, EINTR, EINVAL, ENOTSOCK, EPERM, ETIMEDOUT};

/// Whose a fault of `accept` is (accept(2) of Linux).
#[derive(Clone, Copy, Debug, PartialEq, Eq)]
pub enum AcceptFault {
    /// One connection's, which is gone: the next one may be accepted at once.
    Connection,
    /// The moment's, as that no descriptor is free: the call may succeed later.
    Moment,
    /// The listener's: nothing will be accepted any more.
    Listener,
}

// Numbers of faults that libc of the toolchain has no names for (errno(3) of Linux).
const ENONET: i32 = 64;

const EPROTO: i32 = 71;

const ENOPROTOOPT: i32 = 92;

const EOPNOTSUPP: i32 = 95;

const ENETDOWN: i32 = 100;

const ENETUNREACH: i32 = 101;

const EHOSTDOWN: i32 = 112;

const EHOSTUNREACH: i32 = 113;

/// The listener isn't open, doesn't listen, or is no socket of connections.
const OF_LISTENER: [i32; 4] = [EBADF, EINVAL, ENOTSOCK, EOPNOTSUPP];

/// The peer gave up, a firewall forbids it, or its network failed: "the application should detect the network errors defined for the
/// protocol after accept() and treat them like EAGAIN by retrying".
const OF_CONNECTION: [i32; 12] = [
    EINTR,
    ECONNABORTED,
    ECONNRESET,
    ETIMEDOUT,
    EPERM,
    EPROTO,
    ENONET,
    ENOPROTOOPT,
    ENETDOWN,
    ENETUNREACH,
    EHOSTDOWN,
    EHOSTUNREACH,
];

impl AcceptFault {
    /// The system's number of the fault, where it has one, tells whose it is. One that isn't known is taken for the moment's.
    pub fn of(number: Option<i32>) -> AcceptFault {
        match number {
            Some(number) if OF_LISTENER.contains(&number) => AcceptFault::Listener,
            Some(number) if OF_CONNECTION.contains(&number) => AcceptFault::Connection,
            _ => AcceptFault::Moment,
        }
    }
}
