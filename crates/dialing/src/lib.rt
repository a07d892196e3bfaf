//! Connections that a client makes: `Dial` gives them, `MemDial` in memory and `TcpDial` over TCP. Start with `Dial` and
//! specs/Dialing.antt, which says what is seen of one.
#![tactic(auto)]

mod dial;
mod mem_dial;
mod tcp_dial;

pub use dial::Dial;
pub use mem_dial::MemDial;
pub use tcp_dial::TcpDial;
