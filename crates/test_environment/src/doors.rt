//! Connections in memory.
ghost use Rattle.std.specs.Prelude.{IfSome};
ghost use Rattle.environment.specs.Memory.{input_of};
ghost use Rattle.listening.specs.Doors.{IsFresh};

use base_lists::{Bytes, Texts};
use environment::{MemSink, MemSource, Source};
use listening::{Door, MemDoor, Next};
use std::alloc::Global;
use std::collections::VecDeque;

/// A connection on which this octet comes.
fn link(alloc: Global, octet: u8) -> Option<(MemSource, MemSink)>
    ensures { IfSome result (λ link. IsFresh input_of (λ s. s.seen) link) }
{
    let octets = Bytes::of(alloc, &[octet]).ok()?;
    let source = MemSource::make(octets, Texts::empty(alloc));
    Some((source, MemSink::make(alloc, Texts::empty(alloc))))
}

/// A door with two of them.
fn door(alloc: Global) -> Option<MemDoor> {
    let mut links = VecDeque::new(alloc);
    links.push_back(link(alloc, 1)?).ok()?;
    links.push_back(link(alloc, 2)?).ok()?;
    Some(MemDoor::make(links))
}

/// The octet that comes on the next connection, or none at the end.
fn next_octet(door: &mut MemDoor) -> Option<u8> {
    match door.next() {
        Next::Link(mut reader, _writer) => {
            let mut buffer = [0];
            match reader.read(&mut buffer) {
                Ok(_) => Some(buffer[0]),
                Err(_) => None,
            }
        }
        Next::End => None,
        Next::Failed => None,
    }
}

/// Whether the door is open, gives its connections, and then is at its end.
fn gives_both(door: &mut MemDoor) -> bool {
    door.listen("").is_ok()
        && next_octet(door) == Some(1)
        && next_octet(door) == Some(2)
        && next_octet(door) == None
}

/// Whether such a door does so.
fn door_gives_both(alloc: Global) -> bool {
    match door(alloc) {
        Some(mut door) => gives_both(&mut door),
        None => false,
    }
}

#[test]
fn a_door_in_memory_gives_its_connections_and_then_ends(rt: HostRuntime) {
    assert!(rt; door_gives_both(rt.alloc()));
}
