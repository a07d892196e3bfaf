// What a script keeps of an open Subscribe call.
ghost use Rattle.std.specs.Prelude.{◌≡◌, ◌<◌, IfOk, OnOk};
ghost use Rattle.base_kinds.specs.Rising.{IsRising};
ghost use Rattle.sub_plan.specs.Groups.{patterns_of};
ghost use Rattle.stream_laws.specs.Notes.{note_of};
ghost use Rattle.stream_laws.specs.Streams.{stream_after, turn_input_of};
ghost use Rattle.script_run.specs.CallViews.{stream_patterns, poll_patterns};

use base_kinds::{NoMemory, Note, Paths, View};
use std::alloc::Global;
use std::marker::Model;
use stream_core::Stream;
use sub_plan::{Plan, patterns};

/// A call of mode STREAM.
#[derive(Drop)]
pub struct OpenStream {
    author: u32,
    patterns: Paths,
    stream: Stream,
}

impl Model for OpenStream {
    ghost use Rattle.std.specs.Prelude.{◌≡◌, ◌<◌};
    ghost use Rattle.std.specs.Coded.{codes};
    ghost use Rattle.base_kinds.specs.contracts.value.Value as value;
    ghost use Rattle.sub_plan.specs.Groups.{patterns_of};
    ghost use Rattle.script_run.specs.CallViews.{StreamCall};

    ghost Value = { StreamCall };

    ghost coded = { Prim.hlevel (codes, value.the_row.coded) };

    ghost view = { λ c. record { author = c.author; stream = c.stream } };

    ghost invariant = { λ c. (0 < c.author) × (c.patterns ≡ patterns_of c.stream.lines) };
}

/// A call of mode POLL.
#[derive(Drop)]
pub struct OpenPoll {
    author: u32,
    patterns: Paths,
    plan: Plan,
}

impl Model for OpenPoll {
    ghost use Rattle.std.specs.Prelude.{◌≡◌, ◌<◌};
    ghost use Rattle.std.specs.Coded.{codes};
    ghost use Rattle.base_kinds.specs.contracts.value.Value as value;
    ghost use Rattle.sub_plan.specs.Groups.{patterns_of};
    ghost use Rattle.script_run.specs.CallViews.{PollCall};

    ghost Value = { PollCall };

    ghost coded = { Prim.hlevel (codes, value.the_row.coded) };

    ghost view = { λ c. record { author = c.author; plan = c.plan } };

    ghost invariant = { λ c. (0 < c.author) × (c.patterns ≡ patterns_of c.plan.lines) };
}

impl OpenStream {
    /// The call of this author whose stream has begun, and which looks at these patterns.
    pub fn of(author: u32, patterns: Paths, stream: Stream) -> OpenStream
        requires author { 0 < author }
        requires patterns { patterns ≡ patterns_of stream.lines }
        ensures { result ≡ record { author = author; stream = stream } }
    {
        OpenStream {
            author,
            patterns,
            stream,
        }
    }

    pub fn author(&self) -> u32
        ensures value { result ≡ self.now.author }
        ensures some { 0 < result }
    {
        self.author
    }

    pub fn patterns(&self) -> &Paths
        ensures { result.now ≡ stream_patterns self.now }
    {
        &self.patterns
    }

    /// A turn of its stream.
    pub fn turn(&mut self, alloc: Global, now: u64, view: View) -> Result<Option<Note>, NoMemory>
        requires { IsRising view.rows }
        ensures note { IfOk result (λ note.
            note ≡ note_of (turn_input_of self.old.stream now view) view.stamp) }
        ensures after { OnOk result
            (self.new ≡ record self.old { stream = stream_after self.old.stream now view }) }
    {
        self.stream.turn(alloc, now, view)
    }
}

impl OpenPoll {
    /// The call of this author with this plan.
    pub fn of(alloc: Global, author: u32, plan: Plan) -> Result<OpenPoll, NoMemory>
        requires { 0 < author }
        ensures { IfOk result (λ call. call ≡ record { author = author; plan = plan }) }
    {
        let patterns = patterns(alloc, &plan)?;
        Ok(OpenPoll {
            author,
            patterns,
            plan,
        })
    }

    pub fn author(&self) -> u32
        ensures value { result ≡ self.now.author }
        ensures some { 0 < result }
    {
        self.author
    }

    pub fn patterns(&self) -> &Paths
        ensures { result.now ≡ poll_patterns self.now }
    {
        &self.patterns
    }

    pub fn plan(&self) -> &Plan
        ensures { result.now ≡ self.now.plan }
    {
        &self.plan
    }
}
