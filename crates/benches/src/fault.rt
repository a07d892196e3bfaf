use base_kinds::Refusal;
use base_lists::{NoMemory, TextOfFault};
use gnmi_data_msg::MsgFault;
use h2_send::WireFaultOut;
use path_core::PathFault;
use std::io;

/// Why a case doesn't come to its end.
#[derive(Clone, Copy, Debug)]
pub enum Fault {
    /// What is timed refuses what the program has made for it.
    Refused,
    NoMemory,
}

impl From<NoMemory> for Fault {
    fn from(_e: NoMemory) -> Fault {
        Fault::NoMemory
    }
}

impl From<TextOfFault> for Fault {
    fn from(_e: TextOfFault) -> Fault {
        Fault::NoMemory
    }
}

impl From<PathFault> for Fault {
    fn from(_e: PathFault) -> Fault {
        Fault::NoMemory
    }
}

impl From<MsgFault> for Fault {
    fn from(fault: MsgFault) -> Fault {
        match fault {
            MsgFault::BadMessage => Fault::Refused,
            MsgFault::NoMemory => Fault::NoMemory,
        }
    }
}

impl From<WireFaultOut> for Fault {
    fn from(_e: WireFaultOut) -> Fault {
        Fault::Refused
    }
}

impl From<Refusal> for Fault {
    fn from(refusal: Refusal) -> Fault {
        if refusal.is_memory() {
            Fault::NoMemory
        } else {
            Fault::Refused
        }
    }
}

impl From<Fault> for io::Error {
    fn from(fault: Fault) -> io::Error {
        match fault {
            Fault::Refused => io::Error::from(io::ErrorKind::InvalidData),
            Fault::NoMemory => io::Error::from(io::ErrorKind::OutOfMemory),
        }
    }
}
