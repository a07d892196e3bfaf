//! The messages of a Subscribe of gnmi.proto: a SubscribeRequest read, and SubscribeResponses written.
//!
//! Start at `read_sub`, `write_sub_note` and `write_sync`. What a request's octets are read as is specs/Requests.antt over
//! specs/Lists.antt, what they ask for specs/Turns.antt, and the responses are specs/Replies.antt. The numbers of the fields
//! stand in one table, specs/Numbers.antt (src/numbers.rt).
#![tactic(auto)]

mod laws;
mod lists;
mod numbers;
mod replying;
mod request;
mod turns;

pub use laws::replies_read_back;
pub use lists::{Subscription, SubscriptionList, read_list};
pub use replying::{write_sub_note, write_sync};
pub use request::{SubMember, SubRequest, read_request};
pub use turns::{SubTurn, read_sub};
