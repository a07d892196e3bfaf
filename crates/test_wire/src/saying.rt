//! What a receiver says, in numbers that can be compared.
use h2_events::{RecvEvent, RecvEvents, RecvFault};
use h2_recv::Recv;
use std::alloc::Global;

/// What the last frame of octets says. A stream stands first; octets and headers are counted.
#[derive(Clone, Copy, Debug, PartialEq, Eq)]
pub(crate) enum Says {
    Nothing,
    Fault(u32),
    NoMemory,
    Settings(u32, bool),
    SettingsAck,
    Ping(u64),
    Window(u32, u32),
    Call(u32, usize, bool),
    TooLong(u32),
    Piece(u32, usize, u32, bool),
    Trailers(u32),
    Reset(u32),
    StreamFault(u32, u32),
    GoAway,
}

fn said(event: &RecvEvent) -> Says {
    match event {
        RecvEvent::Settings(window, table) => Says::Settings(*window, *table),
        RecvEvent::SettingsAck => Says::SettingsAck,
        RecvEvent::Ping(octets) => Says::Ping(*octets),
        RecvEvent::Window(stream, by) => Says::Window(*stream, *by),
        RecvEvent::Call(stream, headers, ends) => Says::Call(*stream, headers.len(), *ends),
        RecvEvent::TooLong(stream) => Says::TooLong(*stream),
        RecvEvent::Piece(stream, octets, size, ends) => {
            Says::Piece(*stream, octets.len(), *size, *ends)
        }
        RecvEvent::Trailers(stream) => Says::Trailers(*stream),
        RecvEvent::Reset(stream) => Says::Reset(*stream),
        RecvEvent::StreamFault(stream, code) => Says::StreamFault(*stream, *code),
        RecvEvent::GoAway => Says::GoAway,
    }
}

/// Feeds octets in pieces of this size, at least one, and answers what the last event says.
pub(crate) fn fed(alloc: Global, recv: &mut Recv, octets: &[u8], size: usize) -> Says {
    let mut events = RecvEvents::empty(alloc);
    for piece in octets.chunks(size.max(1)) {
        match recv.feed(alloc, piece, &mut events) {
            Ok(()) => {}
            Err(RecvFault::Protocol(code)) => return Says::Fault(code),
            Err(RecvFault::NoMemory) => return Says::NoMemory,
        }
    }
    match events.items().last() {
        Some(event) => said(event),
        None => Says::Nothing,
    }
}

/// Whether these events say this, in order.
pub(crate) fn are_said(events: &RecvEvents, says: &[Says]) -> bool {
    if events.len() != says.len() {
        return false;
    }
    for (event, expected) in events.items().iter().zip(says.iter()) {
        if said(event) != *expected {
            return false;
        }
    }
    true
}
