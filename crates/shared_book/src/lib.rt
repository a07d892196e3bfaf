//! One book that several authors reach, behind a lock.
//!
//! Start at `Visit` (visit.rt), a port of the book whose every call is one turn at the lock. What it shows is read off what its
//! pass of the lock knows (specs/Visits.antt); what the lock keeps of the book is one list (specs/Items.antt). `HeldBook`
//! (held.rt) is the book as a turn has it in hand, with the journals that a stop leaves at any moment of the turn.
#![tactic(auto)]

mod held;
mod item;
mod laws;
mod visit;

pub use held::HeldBook;
pub use item::{OpenedWith, SharedItem};
pub use laws::met_ports_went_on;
pub use visit::Visit;
