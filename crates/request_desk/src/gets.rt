// A Get: what its message asks, its turn, and its reply.
ghost use Rattle.std.specs.Prelude.{◌≤◌, length, IfOk};
ghost use Rattle.request_desk.specs.Answers.{IsAnsweredBy};
ghost use Rattle.request_desk.specs.Gets.{get_task};
ghost use Rattle.request_desk.specs.Limits.{most_reply_octets};

use crate::asked::{asked_paths, get_ask};
use crate::replies::reply_over;
use base_kinds::Refusal;
use base_lists::Bytes;
use book_port::BookPort;
use schema_core::Schema;
use std::alloc::Global;

/// The answer to a GetRequest: at most one turn of the port, which looks at all its paths at once.
#[tactic(auto, using(crate::proofs::Exits::get_ask_refused, crate::proofs::Exits::get_look_refused, crate::proofs::Exits::get_answered))]
pub(crate) fn answer_get<P: BookPort>(
    alloc: Global,
    schema: &Schema,
    now: u64,
    body: &[u8],
    port: &mut P,
) -> Result<Bytes, Refusal>
    ensures answer { IsAnsweredBy (get_task schema.now body.now) (P.port port.old) now result
        (P.port port.new) }
    ensures within { IfOk result (λ reply. length reply ≤ most_reply_octets) }
{
    let ask = match get_ask(alloc, body) {
        Ok(ask) => ask,
        Err(refusal) => return Err(refusal),
    };
    let paths = match asked_paths(alloc, &ask) {
        Ok(paths) => paths,
        Err(refusal) => return Err(refusal),
    };
    let view = match port.look(alloc, now, &paths) {
        Ok(view) => view,
        Err(refusal) => return Err(refusal),
    };
    match reply_over(alloc, schema, &ask, &view, &paths) {
        Ok(reply) => Ok(reply),
        Err(refusal) => Err(refusal),
    }
}
