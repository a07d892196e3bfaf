//! The decoder of a connection's header blocks.
ghost use Rattle.std.specs.Prelude.{◌≡◌, ◌≢◌, ◌≤◌, ◌<◌, ℕ, List, length, IfOk, IfSome, IsErrOf, None, Ok, Err};
ghost use Rattle.hpack_block.specs.declared.header.Header.{Header as HeaderValue};
ghost use Rattle.hpack_block.specs.Tables.{Table, empty_table, size_of_all};
ghost use Rattle.hpack_block.specs.Block.{Block, AreFields};
ghost use Rattle.hpack_block.specs.inner.Steps.{TakesUpdates, TakesFields, TakesBlock};
ghost use Rattle.hpack_block.specs.Answers.{Answers, IsBad, largest_list};

use crate::dynamic_table::{DynamicTable, LARGEST_TABLE};
use crate::field::field_in;
use crate::form::is_update;
use crate::header::{BlockFault, Ended, Headers};
use crate::header_list::HeaderList;
use crate::integer::integer_in;
use std::alloc::Global;
use std::marker::Model;

const SIZE_BITS: u32 = 5;

/// Reads the header blocks of one direction of a connection, in their order, and keeps their dynamic table.
#[derive(Drop)]
pub struct Decoder {
    table: DynamicTable,
    ended: Option<Ended>,
}

impl Model for Decoder {
    ghost use Rattle.hpack_block.specs.Answers.{State, state_of};

    ghost Value = { State };

    ghost view = { λ d. state_of d.ended d.table };
}

impl Decoder {
    /// With an empty table, whose maximum size is 4,096. Takes no memory.
    pub fn make(alloc: Global) -> Decoder
        ensures { result ≡ Ok empty_table }
    {
        Decoder {
            table: DynamicTable::empty(alloc),
            ended: None,
        }
    }

    /// How many entries the dynamic table has, while no block has ended the decoder.
    pub fn table_entries(&self) -> usize
        ensures { IfOk self.now (λ table. result ≡ length table.entries) }
    {
        self.table.count()
    }

    /// The size of the dynamic table's entries (RFC 7541, section 4.1), while no block has ended the decoder.
    pub fn table_size(&self) -> usize
        ensures { IfOk self.now (λ table. result ≡ size_of_all table.entries) }
    {
        self.table.size()
    }

    /// The headers of a block. After `TooLong` the decoder goes on, with the table as the whole block leaves it. Headers
    /// past the limit are not kept.
    pub fn block(&mut self, alloc: Global, octets: &[u8]) -> Result<Headers, BlockFault>
        ensures { Answers self.old octets.now result self.new }
    {
        if let Some(end) = self.ended {
            return Err(BlockFault::from(end));
        }
        match block_in(alloc, octets, &mut self.table) {
            Ok(list) => list.into_headers(),
            Err(end) => {
                self.ended = Some(end);
                Err(BlockFault::from(end))
            }
        }
    }
}

fn block_in(alloc: Global, octets: &[u8], table: &mut DynamicTable) -> Result<HeaderList, Ended>
    ensures ok { IfOk result (λ list. TakesBlock table.old octets.now table.new list) }
    ensures bad { IsErrOf result Ended.Bad → IsBad table.old octets.now }
{
    let Some(rest) = updates_in(octets, table) else {
        return Err(Ended::Bad);
    };
    fields_in(alloc, rest, table)
}

/// Makes the size updates that stand first, and answers the octets after them.
fn updates_in<'a>(octets: &'a [u8], table: &mut DynamicTable) -> Option<&'a [u8]>
    ensures some { IfSome result (λ rest. TakesUpdates octets.now table.old rest.now table.new) }
    ensures none { result ≡ None → IsBad table.old octets.now }
{
    let mut rest = octets;
    while is_update(rest) {
        let (size, after) = integer_in(SIZE_BITS, rest)?;
        if size > LARGEST_TABLE {
            return None;
        }
        table.resize(size);
        rest = after;
    }
    Some(rest)
}

fn fields_in(alloc: Global, octets: &[u8], table: &mut DynamicTable) -> Result<HeaderList, Ended>
    ensures ok { IfOk result (λ list. TakesFields table.old octets.now table.new list) }
    ensures bad { IsErrOf result Ended.Bad
        → (headers : List HeaderValue) (last : Table)
        → AreFields table.old octets.now headers last → ⊥ }
{
    let mut list = HeaderList::empty(alloc);
    let mut rest = octets;
    while !rest.is_empty() {
        match field_in(alloc, rest, table, &mut list) {
            Ok(after) => rest = after,
            Err(ended) => {
                drop(list);
                return Err(ended);
            }
        }
    }
    Ok(list)
}
