//! One header field of a block.
ghost use Rattle.std.specs.Prelude.{◌≡◌, ◌<◌, ◌≤◌, ℕ, List, length, slice_index, IfOk, IsErrOf};
ghost use Rattle.hpack_block.specs.declared.header.Header.{Header as HeaderValue};
ghost use Rattle.hpack_block.specs.Fields.{form_of, IsName, IsLiteral};
ghost use Rattle.hpack_block.specs.inner.Steps.{TakesField, NoField};

use crate::dynamic_table::DynamicTable;
use crate::form::{Form, first_octet, form_of};
use crate::header::{Ended, Header};
use crate::header_list::HeaderList;
use crate::integer::integer_in;
use crate::string::string_in;
use base_lists::Bytes;
use std::alloc::Global;

const NAME_BITS: u32 = 4;

const INDEXED_NAME_BITS: u32 = 6;

/// Puts the header of the field at the front to the list, and answers the octets after it.
pub(crate) fn field_in<'a>(
    alloc: Global,
    octets: &'a [u8],
    table: &mut DynamicTable,
    list: &mut HeaderList,
) -> Result<&'a [u8], Ended>
    ensures ok { IfOk result (λ rest. TakesField (form_of (slice_index octets.now 0))
        table.old octets.now table.new rest.now list.old list.new) }
    ensures shorter { IfOk result (λ rest. length rest.now < length octets.now) }
    ensures bad { IsErrOf result Ended.Bad
        → NoField (form_of (slice_index octets.now 0)) table.old octets.now }
{
    match form_of(first_octet(octets)) {
        Form::Indexed => indexed_in(alloc, octets, table, list),
        Form::WithIndexing => with_indexing_in(alloc, octets, table, list),
        Form::SizeUpdate => Err(Ended::Bad),
        Form::WithoutIndexing | Form::NeverIndexed => without_indexing_in(
            alloc, octets, table, list,
        ),
    }
}

fn indexed_in<'a>(
    alloc: Global,
    octets: &'a [u8],
    table: &DynamicTable,
    list: &mut HeaderList,
) -> Result<&'a [u8], Ended>
    ensures ok { IfOk result (λ rest. TakesField Form.Indexed
        table.now octets.now table.now rest.now list.old list.new) }
    ensures shorter { IfOk result (λ rest. length rest.now < length octets.now) }
    ensures bad { IsErrOf result Ended.Bad → NoField Form.Indexed table.now octets.now }
{
    let Some((index, rest)) = integer_in(7, octets) else {
        return Err(Ended::Bad);
    };
    let Some((name, value)) = table.entry(index) else {
        return Err(Ended::Bad);
    };
    list.push_copy(alloc, name, value)?;
    Ok(rest)
}

fn with_indexing_in<'a>(
    alloc: Global,
    octets: &'a [u8],
    table: &mut DynamicTable,
    list: &mut HeaderList,
) -> Result<&'a [u8], Ended>
    ensures ok { IfOk result (λ rest. TakesField Form.WithIndexing
        table.old octets.now table.new rest.now list.old list.new) }
    ensures shorter { IfOk result (λ rest. length rest.now < length octets.now) }
    ensures bad { IsErrOf result Ended.Bad → NoField Form.WithIndexing table.old octets.now }
{
    let (header, rest) = literal_in(alloc, INDEXED_NAME_BITS, octets, table)?;
    if let Err(fault) = list.push_copy(alloc, header.name.items(), header.value.items()) {
        drop(header);
        return Err(Ended::from(fault));
    }
    table.add(header)?;
    Ok(rest)
}

fn without_indexing_in<'a>(
    alloc: Global,
    octets: &'a [u8],
    table: &DynamicTable,
    list: &mut HeaderList,
) -> Result<&'a [u8], Ended>
    ensures ok { IfOk result (λ rest. TakesField Form.WithoutIndexing
        table.now octets.now table.now rest.now list.old list.new) }
    ensures shorter { IfOk result (λ rest. length rest.now < length octets.now) }
    ensures bad { IsErrOf result Ended.Bad → NoField Form.WithoutIndexing table.now octets.now }
{
    let (header, rest) = literal_in(alloc, NAME_BITS, octets, table)?;
    list.push(header)?;
    Ok(rest)
}

/// The header of the literal at the front, whose index of the name has a prefix of so many bits, and the octets after
/// it.
fn literal_in<'a>(
    alloc: Global,
    bits: u32,
    octets: &'a [u8],
    table: &DynamicTable,
) -> Result<(Header, &'a [u8]), Ended>
    requires some { 1 ≤ bits }
    requires in_octet { bits ≤ 7 }
    ensures ok { IfOk result (λ x. IsLiteral bits table.now octets.now x.0 x.1.now) }
    ensures shorter { IfOk result (λ x. length x.1.now < length octets.now) }
    ensures bad { IsErrOf result Ended.Bad
        → (header : HeaderValue) (rest : List ℕ)
        → IsLiteral bits table.now octets.now header rest → ⊥ }
{
    let Some((index, after)) = integer_in(bits, octets) else {
        return Err(Ended::Bad);
    };
    let (name, last) = name_in(alloc, index, after, table)?;
    match string_in(alloc, last) {
        Ok((value, rest)) => Ok((Header { name, value }, rest)),
        Err(ended) => {
            drop(name);
            Err(ended)
        }
    }
}

/// The name at an index, or where the index is 0 the string at the front, and the octets after it.
fn name_in<'a>(
    alloc: Global,
    index: usize,
    octets: &'a [u8],
    table: &DynamicTable,
) -> Result<(Bytes, &'a [u8]), Ended>
    ensures ok { IfOk result (λ x. IsName table.now index octets.now x.0 x.1.now) }
    ensures shorter { IfOk result (λ x. length x.1.now ≤ length octets.now) }
    ensures bad { IsErrOf result Ended.Bad
        → (name rest : List ℕ) → IsName table.now index octets.now name rest → ⊥ }
{
    if index == 0 {
        return string_in(alloc, octets);
    }
    let Some((name, _)) = table.entry(index) else {
        return Err(Ended::Bad);
    };
    Ok((Bytes::of(alloc, name)?, octets))
}
