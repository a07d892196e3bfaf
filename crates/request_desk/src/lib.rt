//! One call answered: the reply to a Capabilities, Get or Set message over any port of a book.
//!
//! Start at `Desk::answer` (desk.rt) and at what is answered: specs/Services.antt says what is to be done for a message of each
//! method, specs/Tasks.antt what its answer is at the history that is found, specs/Answers.antt what that does at a port.
//! specs/Gets.antt and specs/Sets.antt have the refusals of a Get and of a Set in their order, and the replies; specs/Notes.antt the
//! Notification of one path. `Desk::subscribe` judges the messages of a Subscribe call, by specs/Subscribes.antt.
#![tactic(auto)]

mod asked;
mod desk;
mod gets;
mod limits;
mod notes;
mod replies;
mod sets;
mod stamps;
mod subscribe_steps;
mod whole;

pub use desk::Desk;
pub use subscribe_steps::SubscribeStep;
