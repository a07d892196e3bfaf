// A Set: what its message asks, its reply, and its turn.
ghost use Rattle.std.specs.Prelude.{◌+◌, ◌≤◌, Ok, Err, length, vec_len, vec_capacity, IfOk};
ghost use Rattle.base_lists.specs.Results.{IsUnlessMemory, and_then};
ghost use Rattle.base_kinds.specs.Legal.{IsFit};
ghost use Rattle.gnmi_set_msg.specs.Requests.{request_of};
ghost use Rattle.request_desk.specs.Answers.{IsAnsweredBy};
ghost use Rattle.request_desk.specs.Limits.{most_reply_octets};
ghost use Rattle.request_desk.specs.Sets.{set_task};
ghost use Rattle.request_desk.specs.inner.Sets.{set_ask, reply_front};

use crate::limits::MOST_FRONT_OCTETS;
use crate::stamps::{MOST_STAMP_OCTETS, with_stamp};
use base_kinds::{Ask, Refusal};
use base_lists::Bytes;
use book_port::BookPort;
use gnmi_data_msg::MsgFault;
use gnmi_set_msg::{read_set, write_set_reply};
use schema_core::Schema;
use set_request::resolve;
use std::alloc::Global;

/// What the message asks of the target.
#[tactic(auto, using(crate::proofs::Fronts::resolved_so, crate::proofs::Fronts::asks_none))]
fn set_ask(alloc: Global, schema: &Schema, body: &[u8]) -> Result<Ask, Refusal>
    ensures answer { IsUnlessMemory Refusal.NoMemory result
        (set_ask schema.now (request_of body.now)) }
    ensures fit { IfOk result (λ ask. IsFit ask) }
{
    match read_set(alloc, body) {
        Ok(ask) => resolve(alloc, schema, &ask),
        Err(MsgFault::BadMessage) => Err(Refusal::BadMessage),
        Err(MsgFault::NoMemory) => Err(Refusal::NoMemory),
    }
}

/// The reply without its timestamp, and with room for it.
#[tactic(auto, using(crate::proofs::Fronts::front_none, crate::proofs::Fronts::front_too_long, crate::proofs::Fronts::front_fits))]
fn reply_front(alloc: Global, body: &[u8]) -> Result<Vec<u8>, Refusal>
    ensures answer { IsUnlessMemory Refusal.NoMemory (and_then result (λ front. Ok front.items))
        (reply_front (request_of body.now)) }
    ensures short { IfOk result (λ front. vec_len front ≤ MOST_FRONT_OCTETS) }
    ensures room { IfOk result (λ front. vec_len front + MOST_STAMP_OCTETS ≤ vec_capacity front) }
{
    let mut octets = Bytes::empty(alloc);
    match write_set_reply(alloc, body, 0, &mut octets) {
        Ok(()) => (),
        Err(MsgFault::BadMessage) => return Err(Refusal::BadMessage),
        Err(MsgFault::NoMemory) => return Err(Refusal::NoMemory),
    }
    if octets.len() > MOST_FRONT_OCTETS {
        return Err(Refusal::TooLarge);
    }
    let mut front = octets.into_vec();
    match front.reserve(MOST_STAMP_OCTETS) {
        Ok(()) => Ok(front),
        Err(_) => Err(Refusal::NoMemory),
    }
}

/// The answer to a SetRequest: at most one turn of the port. The memory of the reply is taken, and its length judged, before the
/// turn; so a refused Set, and one that memory is wanting for, changes nothing.
#[tactic(auto, using(crate::proofs::Exits::set_ask_refused, crate::proofs::Exits::set_reply_refused, crate::proofs::Exits::set_accepted, crate::proofs::Exits::set_refused, crate::proofs::Lengths::reply_fits))]
pub(crate) fn answer_set<P: BookPort>(
    alloc: Global,
    schema: &Schema,
    now: u64,
    body: &[u8],
    port: &mut P,
) -> Result<Bytes, Refusal>
    ensures answer { IsAnsweredBy (set_task schema.now body.now) (P.port port.old) now result
        (P.port port.new) }
    ensures within { IfOk result (λ reply. length reply ≤ most_reply_octets) }
{
    let ask = match set_ask(alloc, schema, body) {
        Ok(ask) => ask,
        Err(refusal) => return Err(refusal),
    };
    let front = match reply_front(alloc, body) {
        Ok(front) => front,
        Err(refusal) => return Err(refusal),
    };
    match port.set(alloc, now, ask) {
        Ok(stamp) => Ok(with_stamp(front, stamp)),
        Err(refusal) => Err(refusal),
    }
}
