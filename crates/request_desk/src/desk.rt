ghost use Rattle.std.specs.Prelude.{◌≡◌, ◌≢◌, ◌≤◌, length, IfOk};
ghost use Rattle.base_lists.specs.Results.{IsUnlessMemory};
ghost use Rattle.request_desk.specs.Answers.{IsAnsweredBy};
ghost use Rattle.request_desk.specs.Limits.{most_reply_octets};
ghost use Rattle.request_desk.specs.Services.{capabilities_task, task_of};
ghost use Rattle.request_desk.specs.Subscribes.{subscribe_step};

use crate::gets::answer_get;
use crate::sets::answer_set;
use crate::subscribe_steps::{SubscribeStep, subscribe_step};
use base_kinds::{ListMode, Refusal};
use base_lists::Bytes;
use book_port::BookPort;
use gnmi_get_msg::write_capabilities;
use grpc_core::Method;
use pb_message::is_message;
use schema_core::Schema;
use std::alloc::Global;
use std::marker::Model;

/// Where messages are answered under one schema. Contracts see the schema.
#[derive(Drop)]
pub struct Desk {
    schema: Schema,
}

impl Model for Desk {
    ghost use Rattle.std.specs.Prelude.{List};
    ghost use Rattle.base_kinds.specs.Schema.{SchemaNode};

    ghost Value = { List SchemaNode };

    ghost view = { λ d. d.schema };
}

impl Desk {
    pub fn make(schema: Schema) -> Desk
        ensures { result ≡ schema }
    {
        Desk { schema }
    }

    /// The schema under which it answers.
    pub fn schema(&self) -> &Schema
        ensures { result.now ≡ self.now }
    {
        &self.schema
    }

    /// The answer to the message of a call of this method, at this reading of the clock in nanoseconds since 1970: at most one turn
    /// of the port, whose book has the desk's schema. What is answered is `task_of`, with the refusals of each method in their
    /// order (gNMI 3.2 to 3.4). What a Set's reply takes is taken, and its length judged, before the turn; what a Get's takes,
    /// behind it. A Subscribe call isn't answered by one message: it is refused as not supported.
    #[tactic(auto, using(crate::proofs::Exits::said, crate::proofs::Exits::still_opened))]
    pub fn answer<P: BookPort>(
        &self,
        alloc: Global,
        method: Method,
        body: &[u8],
        now: u64,
        port: &mut P,
    ) -> Result<Bytes, Refusal>
        requires { (P.port port.old).opened.schema ≡ self.now }
        ensures answer { IsAnsweredBy (task_of (P.port port.old).opened.schema method body.now)
            (P.port port.old) now result (P.port port.new) }
        ensures within { method ≢ Method.Capabilities
            → IfOk result (λ reply. length reply ≤ most_reply_octets) }
        ensures opened { (P.port port.new).opened ≡ (P.port port.old).opened }
    {
        match method {
            Method::Capabilities => answer_capabilities(alloc, &self.schema, now, body, port),
            Method::Get => answer_get(alloc, &self.schema, now, body, port),
            Method::Set => answer_set(alloc, &self.schema, now, body, port),
            Method::Subscribe => Err(Refusal::Unsupported),
        }
    }

    /// What the message asks of its Subscribe call, behind the first list of this mode, if there was one (gNMI 3.5.1.1): a first
    /// list begins the call with its plan, and a Poll asks a call of mode POLL for the state once more. Refused are, in this order:
    /// octets that are no message (`BadMessage`); what this target doesn't support (`Unsupported`); a second list, a Poll of a call
    /// of another mode or before the first list, and a list that is none (`BadSubscribe`); its paths (`BadPath`, `plan_of` of
    /// sub_plan). Want of memory refuses any message (`NoMemory`). Paths aren't looked up in the schema.
    pub fn subscribe(
        &self,
        alloc: Global,
        body: &[u8],
        started: Option<ListMode>,
    ) -> Result<SubscribeStep, Refusal>
        ensures { IsUnlessMemory Refusal.NoMemory result (subscribe_step started body.now) }
    {
        subscribe_step(alloc, body, started)
    }
}

/// The answer to a CapabilityRequest, without a turn.
#[tactic(auto, using(crate::proofs::Exits::no_message, crate::proofs::Exits::capable, crate::proofs::Exits::starved))]
fn answer_capabilities<P: BookPort>(
    alloc: Global,
    schema: &Schema,
    now: u64,
    body: &[u8],
    port: &mut P,
) -> Result<Bytes, Refusal>
    ensures { IsAnsweredBy (capabilities_task schema.now body.now) (P.port port.old) now result
        (P.port port.new) }
{
    if !is_message(body) {
        return Err(Refusal::BadMessage);
    }
    let mut reply = Bytes::empty(alloc);
    match write_capabilities(alloc, schema, &mut reply) {
        Ok(()) => Ok(reply),
        Err(_) => Err(Refusal::NoMemory),
    }
}
