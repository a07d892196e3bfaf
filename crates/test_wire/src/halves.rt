//! The two halves of a connection together.
use environment::MemSink;
use h2_events::{RecvEvents, RecvFault};
use h2_recv::Recv;
use h2_send::{Wire, WireFaultOut};
use std::alloc::Global;

/// What octets of the peer came to.
#[derive(Clone, Copy, Debug, PartialEq, Eq)]
pub(crate) enum Came {
    Read,
    Protocol(u32),
    Overflow,
    WriteFault,
    NoMemory,
}

/// Feeds octets, and acts on each event that they are.
pub(crate) fn feed(
    alloc: Global,
    recv: &mut Recv,
    wire: &mut Wire<MemSink>,
    octets: &[u8],
) -> Came {
    let mut events = RecvEvents::empty(alloc);
    match recv.feed(alloc, octets, &mut events) {
        Ok(()) => act(alloc, wire, &events),
        Err(RecvFault::Protocol(code)) => Came::Protocol(code),
        Err(RecvFault::NoMemory) => Came::NoMemory,
    }
}

fn act(alloc: Global, wire: &mut Wire<MemSink>, events: &RecvEvents) -> Came {
    for event in events.items() {
        match wire.act(alloc, event) {
            Ok(()) => {}
            Err(WireFaultOut::Overflow) => return Came::Overflow,
            Err(WireFaultOut::WriteFault) => return Came::WriteFault,
            Err(WireFaultOut::NoMemory) => return Came::NoMemory,
        }
    }
    Came::Read
}
