// Calls, one after another, and their answers.
ghost use Rattle.std.specs.Prelude.{◌≡◌};

use crate::target::{Target, new_target};
use base_kinds::Refusal;
use base_lists::Bytes;
use grpc_core::Method;
use std::alloc::Global;
use std::process::Abort;

pub enum Answer {
    Reply(&'static [u8]),
    Refused(Refusal),
}

/// A message of the method, and its answer at this reading of the clock.
pub struct Call {
    pub method: Method,
    pub request: &'static [u8],
    pub now: u64,
    pub answer: Answer,
}

fn is_answer(found: &Result<Bytes, Refusal>, answer: &Answer) -> bool {
    match (found, answer) {
        (Ok(reply), Answer::Reply(octets)) => reply.items() == *octets,
        (Err(refusal), Answer::Refused(other)) => *refusal == *other,
        _ => false,
    }
}

fn assert_answer(rt: &impl Abort, found: &Result<Bytes, Refusal>, call: &Call) {
    assert!(rt;
        is_answer(found, &call.answer),
        "{:?} of {:?}",
        found,
        call.request
    );
}

fn assert_call(rt: &impl Abort, alloc: Global, target: &mut Target, call: &Call)
    requires { target.old.port.book.opened.schema ≡ target.old.desk }
    ensures { target.new.port.book.opened.schema ≡ target.new.desk }
{
    let found = target.answer(alloc, call.method, call.request, call.now);
    assert_answer(rt, &found, call);
}

fn assert_each(rt: &impl Abort, alloc: Global, target: &mut Target, calls: &[Call])
    requires { target.old.port.book.opened.schema ≡ target.old.desk }
{
    for call in calls.iter() {
        assert_call(rt, alloc, target, call);
    }
}

/// That the calls are answered so over an empty tree, whose disk fails in the call after so many, if in any.
pub fn assert_answers(rt: &impl Abort, alloc: Global, fails: Option<u64>, calls: &[Call]) {
    let mut target = new_target(rt, alloc, fails);
    assert_each(rt, alloc, &mut target, calls);
}
