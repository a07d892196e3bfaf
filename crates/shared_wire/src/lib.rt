//! One wire that several threads write to, behind a lock.
//!
//! Start at `WireVisit` (visit.rt), a port of the wire whose every call is one turn at the lock. What each call that finds the
//! wire open does is recorded, in the order of the turns (specs/Records.antt); what a port shows is read off what its pass of the
//! lock knows (specs/Visits.antt). `HeldWire` (held.rt) is the wire as a turn has it in hand.
#![tactic(auto)]

mod held;
mod laws;
mod log;
mod visit;

pub use held::HeldWire;
pub use laws::{
    all_of_a_port, others_in_turns, ports_of_records, records_in_octets, write_faults_of_records,
};
pub use log::Recorded;
pub use visit::WireVisit;
