ghost use Rattle.std.specs.Prelude.{◌≡◌, IfOk, IfErr};
ghost use Rattle.program.specs.SchemaFile.{UnderSchema, fault_line};
ghost use Rattle.program.specs.SchemaGiven.{SchemaGives};
ghost use Rattle.program.specs.inner.OpenedSchema.{Opened};

use crate::ending::Ending;
use crate::files::Files;
use crate::host::{Host, Kit};
use crate::printing::{input_fault, out_of_memory, print};
use base_kinds::{Bytes, NoMemory};
use environment::ReadFault;
use plain_texts::put_number;
use schema_core::Schema;
use schema_text::{SchemaError, SchemaFault, read_schema};
use std::alloc::Global;

/// Why a file gives no schema.
#[derive(Clone, Copy, Debug, PartialEq, Eq)]
pub enum SchemaFileError {
    Unreadable,
    /// Its text is none, with this first fault.
    NoSchema(SchemaFault),
    NoMemory,
}

/// The schema whose text is in the file with this name.
pub fn schema_in_file<F: Files>(
    alloc: Global,
    name: &str,
    files: &mut F,
) -> Result<Schema, SchemaFileError>
    ensures { SchemaGives name.now result (F.seen files.old) (F.seen files.new) }
{
    let text = match files.text(alloc, name) {
        Ok(text) => text,
        Err(ReadFault::Failed) => return Err(SchemaFileError::Unreadable),
        Err(ReadFault::NoMemory) => return Err(SchemaFileError::NoMemory),
    };
    match read_schema(alloc, text.items()) {
        Ok(schema) => Ok(schema),
        Err(SchemaError::Fault(fault)) => Err(SchemaFileError::NoSchema(fault)),
        Err(SchemaError::NoMemory) => Err(SchemaFileError::NoMemory),
    }
}

/// Reads the schema whose text is in the file with this name, or says why there is none.
pub fn open_schema<K: Kit>(alloc: Global, name: &str, host: &mut Host<K>) -> Result<Schema, Ending>
    ensures opened { IfOk result (λ schema. Opened name.now schema host.old host.new) }
    ensures stopped { IfErr result (λ ending.
        UnderSchema name.now host.old host.new ending (λ _. ⊥)) }
    ensures rest { IfErr result (λ _.
        host.new ≡ record host.old { files = host.new.files; output = host.new.output }) }
{
    match schema_in_file(alloc, name, &mut host.files) {
        Ok(schema) => Ok(schema),
        Err(SchemaFileError::Unreadable) => Err(input_fault(&mut host.output)),
        Err(SchemaFileError::NoSchema(fault)) => match fault_line(alloc, fault) {
            Ok(line) => Err(print(line.items(), Ending::NoSchema, &mut host.output)),
            Err(_) => Err(out_of_memory(&mut host.output)),
        },
        Err(SchemaFileError::NoMemory) => Err(out_of_memory(&mut host.output)),
    }
}

/// The line that tells of the first fault of a text that is no schema.
fn fault_line(alloc: Global, fault: SchemaFault) -> Result<Bytes, NoMemory>
    ensures { IfOk result (λ line. line ≡ fault_line fault) }
{
    let mut line = Bytes::empty(alloc);
    line.extend_from_slice(b"schema line ")?;
    put_number(alloc, fault.line as u64, &mut line)?;
    line.extend_from_slice(b": ")?;
    line.extend_from_slice(fault.cause.text())?;
    line.extend_from_slice(b"\n")?;
    Ok(line)
}
