ghost use Rattle.std.specs.Prelude.{◌≡◌, ◌≤◌, ◌++◌, [], length, IfOk, OnOk, IfSome, IfNone};
ghost use Rattle.base_kinds.specs.Limits.{AreInRange, most_script_octets};
ghost use Rattle.script_text.specs.declared.line.Line.{Line as ScriptLine};
ghost use Rattle.script_text.specs.Lines.{lines_of};
ghost use Rattle.script_run.specs.ScriptOctets.{is_too_long, within_limit};
ghost use Rattle.script_run.specs.ScriptStates.{HasFitAuthor};
ghost use Rattle.script_run.specs.inner.ScriptEnds.{text_at_end};
ghost use Rattle.script_text.specs.Grammar.{IsLine};
ghost use Rattle.script_run.specs.Scripts.{Prints, RunsScript, refused_line};

use crate::limit::{is_too_long, within_limit};
use crate::state::ScriptState;
use base_kinds::{Bytes, Entry, Limits, NoMemory};
use log_text::put_log;
use plain_texts::put_number;
use schema_core::Schema;
use script_text::{Line, LineFault, next_line, read_line};
use std::alloc::Global;

/// How a script ends.
#[derive(Clone, Copy, Debug, PartialEq, Eq)]
pub enum ScriptEnd {
    /// Each of its lines was taken.
    Whole,
    /// A line is none of a script.
    Refused,
    /// A call of the disk failed in an opening behind a stop.
    DiskFault,
}

/// What a script prints, and how it ends.
#[derive(Drop)]
pub struct Transcript {
    pub text: Bytes,
    pub ending: ScriptEnd,
}

/// Runs the script's lines in order, up to the first that is none, over a book on a disk in memory, whose journal takes these
/// limits (`Limits::in_range`). `NoMemory` comes wherever memory was wanting, for that disk too.
#[tactic(auto, unfolding(crate::specs::Scripts::RunsScript))]
pub fn run_script(
    alloc: Global,
    schema: Schema,
    limits: Limits,
    script: &[u8],
) -> Result<Transcript, NoMemory>
    requires { AreInRange limits }
    ensures { IfOk result (λ transcript.
        RunsScript schema limits script.now transcript.text transcript.ending) }
{
    match ScriptState::new(alloc, schema, limits) {
        Ok(state) => run_lines(alloc, state, script),
        Err(NoMemory) => Err(NoMemory),
    }
}

/// Runs the script's lines from this state on.
fn run_lines(alloc: Global, state: ScriptState, script: &[u8]) -> Result<Transcript, NoMemory>
    ensures { IfOk result (λ transcript. Prints (is_too_long script.now) 1
        (lines_of (within_limit script.now)) state transcript.text transcript.ending) }
{
    let mut state = state;
    let mut text = Bytes::empty(alloc);
    let goes_on = is_too_long(script);
    let taken = take_lines(alloc, &mut state, goes_on, within_limit(script), &mut text);
    // The state is let go here, on one way: each way on which it were let go costs its proof.
    let entries = state.into_entries();
    match taken {
        Ok(ending) => ended(alloc, entries.items(), ending, text),
        Err(NoMemory) => Err(NoMemory),
    }
}

/// The transcript of this text and what stands at its end.
fn ended(
    alloc: Global,
    entries: &[Entry],
    ending: ScriptEnd,
    text: Bytes,
) -> Result<Transcript, NoMemory>
    ensures text { IfOk result (λ transcript.
        transcript.text ≡ text ++ text_at_end ending entries.now) }
    ensures ending { IfOk result (λ transcript. transcript.ending ≡ ending) }
{
    let mut text = text;
    match put_end(alloc, entries, ending, &mut text) {
        Ok(()) => Ok(Transcript { text, ending }),
        Err(NoMemory) => Err(NoMemory),
    }
}

/// Adds the log of these entries, where each line was taken.
fn put_end(
    alloc: Global,
    entries: &[Entry],
    ending: ScriptEnd,
    out: &mut Bytes,
) -> Result<(), NoMemory>
    ensures { OnOk result (out.new ≡ out.old ++ text_at_end ending entries.now) }
{
    match ending {
        ScriptEnd::Whole => {
            out.extend_from_slice(b"log\n")?;
            put_log(alloc, entries, out)
        }
        ScriptEnd::Refused => Ok(()),
        ScriptEnd::DiskFault => Ok(()),
    }
}

/// Takes the lines of this text, up to the first that is none, or behind which no book could be opened. Where the script goes on
/// behind it, the next line is refused.
fn take_lines(
    alloc: Global,
    state: &mut ScriptState,
    goes_on: bool,
    script: &[u8],
    text: &mut Bytes,
) -> Result<ScriptEnd, NoMemory>
    requires short { length script.now ≤ most_script_octets }
    requires empty { text.old ≡ [] }
    ensures { IfOk result (λ ending. Prints goes_on 1 (lines_of script.now) state.old
        (text.new ++ text_at_end ending state.new.history) ending) }
{
    let mut number = 1u64;
    let mut rest = script;
    'lines: while let Some((octets, others)) = next_line(rest) {
        match script_line(alloc, octets)? {
            Some(line) => {
                if !state.act(alloc, line, text)? {
                    text.extend_from_slice(b"disk fault\n")?;
                    return Ok(ScriptEnd::DiskFault);
                }
            }
            None => {
                put_refused_line(alloc, number, text)?;
                return Ok(ScriptEnd::Refused);
            }
        }
        number += 1;
        rest = others;
    }
    if goes_on {
        put_refused_line(alloc, number, text)?;
        return Ok(ScriptEnd::Refused);
    }
    Ok(ScriptEnd::Whole)
}

/// The line that the octets are.
#[tactic(auto, using(crate::proofs::Authors::has_fit_author))]
fn script_line(alloc: Global, octets: &[u8]) -> Result<Option<Line>, NoMemory>
    ensures line { IfOk result (λ found. IfSome found (IsLine octets.now)) }
    ensures author { IfOk result (λ found. IfSome found HasFitAuthor) }
    ensures no_line { IfOk result (λ found.
        IfNone found ((line : ScriptLine) → IsLine octets.now line → ⊥)) }
{
    match read_line(alloc, octets) {
        Ok(line) => Ok(Some(line)),
        Err(LineFault::NoLine) => Ok(None),
        Err(LineFault::NoMemory) => Err(NoMemory),
    }
}

fn put_refused_line(alloc: Global, number: u64, out: &mut Bytes) -> Result<(), NoMemory>
    ensures { OnOk result (out.new ≡ out.old ++ refused_line number) }
{
    out.extend_from_slice(b"script line ")?;
    put_number(alloc, number, out)?;
    out.extend_from_slice(b" refused\n")?;
    Ok(())
}
