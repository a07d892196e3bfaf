ghost use Rattle.std.specs.Prelude.{◌≡◌};
ghost use Rattle.base_kinds.specs.Limits.{AreInRange};
ghost use Rattle.program.specs.ScriptRun.{ScriptRun, RunsLines, script_ending};

use crate::ending::Ending;
use crate::host::{Host, Kit};
use crate::printing::{input_fault, out_of_memory, print};
use crate::schema_file::open_schema;
use base_kinds::{Limits, MOST_SCRIPT_OCTETS};
use environment::{ReadFault, read_to_limit};
use schema_core::Schema;
use script_run::{ScriptEnd, run_script};
use std::alloc::Global;

/// Runs a script under these limits and the schema whose text is in the file with this name.
pub fn script<K: Kit>(alloc: Global, name: &str, limits: Limits, host: &mut Host<K>) -> Ending
    requires { AreInRange limits }
    ensures run { ScriptRun name.now limits host.old host.new result }
    ensures door { host.new.door ≡ host.old.door }
{
    match open_schema(alloc, name, host) {
        Ok(schema) => run_lines(alloc, schema, limits, host),
        Err(ending) => ending,
    }
}

/// Reads the script, and prints the answers to its lines.
fn run_lines<K: Kit>(alloc: Global, schema: Schema, limits: Limits, host: &mut Host<K>) -> Ending
    requires { AreInRange limits }
    ensures lines { RunsLines limits host.old host.new result schema }
    ensures files { host.new.files ≡ host.old.files }
    ensures door { host.new.door ≡ host.old.door }
{
    let octets = match read_to_limit(alloc, &mut host.input, MOST_SCRIPT_OCTETS) {
        Ok(octets) => octets,
        Err(ReadFault::Failed) => return input_fault(&mut host.output),
        Err(ReadFault::NoMemory) => return out_of_memory(&mut host.output),
    };
    let Ok(transcript) = run_script(alloc, schema, limits, octets.items()) else {
        return out_of_memory(&mut host.output);
    };
    let good = script_ending(transcript.ending);
    print(transcript.text.items(), good, &mut host.output)
}

/// How a run ends whose script ends so.
fn script_ending(ending: ScriptEnd) -> Ending
    ensures { result ≡ script_ending ending }
{
    match ending {
        ScriptEnd::Whole => Ending::Done,
        ScriptEnd::Refused => Ending::BadLine,
        ScriptEnd::DiskFault => Ending::DiskFault,
    }
}
