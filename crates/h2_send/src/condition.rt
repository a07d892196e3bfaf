ghost use Rattle.std.specs.Prelude.{◌≡◌};
ghost use Rattle.h2_send.specs.Conditions.{answer_of, answered, condition_after, is_closed, took_of};

use crate::fault::WireFaultOut;
use environment::Failed;
use h2_events::Took;

/// Whether a wire still writes, and if not, what closed it.
#[derive(Clone, Copy, Debug, PartialEq, Eq)]
pub enum Condition {
    /// The greeting, which comes before all else, isn't written yet.
    New,
    Open,
    /// By `finish`.
    Finished,
    WriteFault,
    NoMemory,
}

/// What a wire answers from then on.
pub(crate) fn answer_of(condition: Condition) -> Result<(), WireFaultOut>
    ensures { result ≡ answer_of condition }
{
    match condition {
        Condition::New => Ok(()),
        Condition::Open => Ok(()),
        Condition::Finished => Ok(()),
        Condition::WriteFault => Err(WireFaultOut::WriteFault),
        Condition::NoMemory => Err(WireFaultOut::NoMemory),
    }
}

/// Whether nothing is written any more.
pub(crate) fn is_closed(condition: Condition) -> bool
    ensures { result ≡ is_closed condition }
{
    match condition {
        Condition::New => false,
        Condition::Open => false,
        Condition::Finished => true,
        Condition::WriteFault => true,
        Condition::NoMemory => true,
    }
}

/// What a call leaves of an open wire, where `next` follows on Ok.
pub(crate) fn condition_after(next: Condition, done: &Result<(), WireFaultOut>) -> Condition
    ensures { result ≡ condition_after next done.now }
{
    match done {
        Ok(()) => next,
        Err(WireFaultOut::WriteFault) => Condition::WriteFault,
        Err(WireFaultOut::NoMemory) => Condition::NoMemory,
        Err(WireFaultOut::Overflow) => Condition::Open,
    }
}

/// What a call answers of a sink.
pub(crate) fn answered(done: Result<(), Failed>) -> Result<(), WireFaultOut>
    ensures { result ≡ answered done }
{
    match done {
        Ok(()) => Ok(()),
        Err(_) => Err(WireFaultOut::WriteFault),
    }
}

/// What became of a piece that was taken.
pub(crate) fn took_of(done: &Result<(), WireFaultOut>) -> Took
    ensures { result ≡ took_of done.now }
{
    match done {
        Ok(()) => Took::Taken,
        Err(WireFaultOut::WriteFault) => Took::WriteFault,
        Err(WireFaultOut::NoMemory) => Took::NoMemory,
        Err(WireFaultOut::Overflow) => Took::Gone,
    }
}
