//! What the two halves of an HTTP/2 connection say to each other and to who serves it: the events of frames that were
//! read, what may be said on a stream and what becomes of it, and the order of all that happens. Start with `RecvEvent` and
//! specs/Items.antt (the order and what is read off it).
#![tactic(auto)]

mod event;
mod laws;
mod port;
mod said;

pub use event::{RecvEvent, RecvEvents, RecvFault};
pub use laws::{highest_of_more, one_goes_together, orders_join, what_can_be_said};
pub use port::{Ready, Took};
pub use said::{Piece, Said};
