ghost use Rattle.std.specs.Prelude.{◌≡◌, IfOk};
ghost use Rattle.program.specs.CheckRun.{CheckRun, count_line};

use crate::ending::Ending;
use crate::host::{Host, Kit};
use crate::printing::{out_of_memory, print};
use crate::schema_file::open_schema;
use base_kinds::{Bytes, NoMemory};
use plain_texts::put_number_line;
use schema_core::Schema;
use std::alloc::Global;

/// Prints how many nodes the schema has whose text is in the file with this name.
pub fn check<K: Kit>(alloc: Global, name: &str, host: &mut Host<K>) -> Ending
    ensures run { CheckRun name.now host.old host.new result }
    ensures door { host.new.door ≡ host.old.door }
{
    let schema = match open_schema(alloc, name, host) {
        Ok(schema) => schema,
        Err(ending) => return ending,
    };
    match count_line(alloc, &schema) {
        Ok(line) => print(line.items(), Ending::Done, &mut host.output),
        Err(_) => out_of_memory(&mut host.output),
    }
}

fn count_line(alloc: Global, schema: &Schema) -> Result<Bytes, NoMemory>
    ensures { IfOk result (λ line. line ≡ count_line schema.now) }
{
    let mut line = Bytes::empty(alloc);
    put_number_line(alloc, b"schema ok ", schema.nodes() as u64, &mut line)?;
    Ok(line)
}
