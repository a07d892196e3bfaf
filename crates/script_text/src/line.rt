use base_kinds::{Act, Bytes, Fill, ListMode, NoMemory, Path, Span, SubLine, Text};

/// An event of a script. `A` stands for an author.
#[derive(PartialEq, Drop)]
pub enum Line {
    /// `at N`: the clock reads N from now on, in nanoseconds since 1970.
    At(u64),
    /// `delete PATH`, `replace PATH VALUE` or `update PATH VALUE`: the pending request has one operation more. The
    /// value is JSON text, unread; of a delete it is empty.
    Add(Act, Path, Bytes),
    /// `set A`: the pending request is a Set.
    Set(u32),
    /// `trial A ID SECONDS`: the pending request is a trial with this id that lasts so long.
    Trial(u32, Text, Span),
    /// `confirm A ID`: the trial stays.
    Confirm(u32, Text),
    /// `cancel A ID`: the trial is taken back.
    Cancel(u32, Text),
    /// `extend A ID SECONDS`: the trial lasts so long from now on.
    Extend(u32, Text, Span),
    /// `get A PATH`: the rows that this pattern covers are read, those at and below what it matches (gNMI 3.3).
    Get(u32, Path),
    /// `sub PATH change HEARTBEAT` or `sub PATH sample INTERVAL HEARTBEAT SUPPRESS`: the pending subscriptions are one
    /// more, with times in nanoseconds.
    Sub(SubLine),
    /// `open A NAME MODE ONLY`: a call of this name subscribes with the pending ones. ONLY is `updates_only` (gNMI
    /// 3.5.1.2), 1 for set.
    Open(u32, Text, ListMode, bool),
    /// `turn NAME`: the stream of this name sends what is due.
    Turn(Text),
    /// `poll NAME`: the call of this name is polled.
    Poll(Text),
    /// `end NAME`: the call of this name ends.
    End(Text),
    /// `stop K F`: after K more calls of the device the next one stops, and leaves this fill.
    Stop(u64, Fill),
    /// `fail K`: after K more calls of the device the next one fails.
    Fail(u64),
}

#[derive(Clone, Copy, Debug, PartialEq, Eq)]
pub enum LineFault {
    NoLine,
    NoMemory,
}

impl From<NoMemory> for LineFault {
    ghost use Rattle.std.specs.Prelude.{◌≡◌};
    ghost use Rattle.script_text.specs.declared.line.LineFault.TheVariants.{NoMemory as OutOfMemory};

    ghost from_gives = { λ _ fault. fault ≡ OutOfMemory };

    fn from(_e: NoMemory) -> LineFault {
        LineFault::NoMemory
    }
}
