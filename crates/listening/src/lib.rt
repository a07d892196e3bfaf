//! Connections that come in. A `Door` is a listening socket: it is opened at an address, and gives one connection after
//! another, each as a `Source` and a `Sink` (specs/Doors.antt). `MemDoor` gives connections in memory.
#![tactic(auto)]

mod door;
mod mem_door;

pub use door::{Door, Next};
pub use mem_door::{Links, MemDoor};
