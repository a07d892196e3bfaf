//! One HEADERS frame with its whole header block.
ghost use Rattle.std.specs.Prelude.{◌≡◌, ◌<◌, ◌^◌, ◌++◌, length, IfOk, OnOk};
ghost use Rattle.h2_windows.specs.Written.{spelled};
ghost use Rattle.h2_send.specs.Headers.{update_owed, block_with, block_frame, headers_frame};
ghost use Rattle.h2_send.specs.inner.Sizes.{IsSmall};

use base_lists::{Bytes, NoMemory};
use h2_frame::{HEADERS, Head, head_octets};
use hpack_block::{Headers, encode_block};
use std::alloc::Global;

/// An update of the table's maximum size to 0 (RFC 7541 section 6.3).
const SIZE_UPDATE: u8 = 0x20;

/// A block to which headers are added.
fn new_block(alloc: Global, owes_update: bool) -> Result<Bytes, NoMemory>
    ensures { IfOk result (λ block. block ≡ update_owed owes_update) }
{
    let mut block = Bytes::empty(alloc);
    if owes_update {
        block.push(SIZE_UPDATE)?;
    }
    Ok(block)
}

/// The headers of both lists in one block, behind the update of the table's size where one is owed.
fn block_of_both(
    alloc: Global,
    owes_update: bool,
    first: &Headers,
    second: &Headers,
) -> Result<Bytes, NoMemory>
    requires first { IsSmall first.now }
    requires second { IsSmall second.now }
    ensures { IfOk result (λ block. block ≡ block_with owes_update (first.now ++ second.now)) }
{
    let mut block = new_block(alloc, owes_update)?;
    encode_block(first, &mut block)?;
    encode_block(second, &mut block)?;
    Ok(block)
}

fn add_frame(stream: u32, flags: u8, block: &Bytes, out: &mut Bytes) -> Result<(), NoMemory>
    requires { length block.now < 2 ^ 32 }
    ensures { OnOk result (out.new ≡ out.old ++ spelled (block_frame stream flags block.now)) }
{
    let head = Head {
        length: block.len() as u32,
        kind: HEADERS,
        flags,
        stream,
    };
    out.extend_from_slice(&head_octets(&head))?;
    out.extend_from_slice(block.items())
}

/// Adds a HEADERS frame with the headers of both lists.
pub(crate) fn add_headers(
    alloc: Global,
    owes_update: bool,
    stream: u32,
    flags: u8,
    first: &Headers,
    second: &Headers,
    out: &mut Bytes,
) -> Result<(), NoMemory>
    requires first { IsSmall first.now }
    requires second { IsSmall second.now }
    ensures { OnOk result (out.new ≡ out.old
        ++ spelled (headers_frame owes_update stream flags (first.now ++ second.now))) }
{
    let block = block_of_both(alloc, owes_update, first, second)?;
    add_frame(stream, flags, &block, out)
}
