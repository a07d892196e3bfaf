//! Headers, written in one form.
ghost use Rattle.std.specs.Prelude.{◌≡◌, ◌≤◌, ◌<◌, ◌+◌, ◌-◌, ◌^◌, ◌++◌, All, OnOk, OnErr, length};
ghost use Rattle.hpack_block.specs.Integers.{largest_integer};
ghost use Rattle.hpack_block.specs.Tables.{Table};
ghost use Rattle.hpack_block.specs.Block.{Block};
ghost use Rattle.base_lists.specs.SevenBits.{groups_of};
ghost use Rattle.base_lists.specs.Fronts.{AppendsFront};
ghost use Rattle.hpack_block.specs.Written.{integer_of, string_of, name_of, literal_of, field_of, block_of, IsShort};

use crate::header::{Header, Headers};
use crate::static_table::{place_of_name, place_of_pair};
use base_lists::{Bytes, NoMemory, put_groups};

/// Adds a block that gives these headers, whatever the table of who reads it, which it leaves as it is.
#[tactic(auto, using(crate::proofs::WrittenLemmas::block_written))]
pub fn encode_block(headers: &Headers, out: &mut Bytes) -> Result<(), NoMemory>
    requires { All IsShort headers.now }
    ensures ok { OnOk result (out.new ≡ out.old ++ block_of headers.now) }
    // What was added before memory ran out is a front of the block.
    ensures err { OnErr result (AppendsFront out.old out.new (block_of headers.now)) }
    ensures is_block { (table : Table) → Block (block_of headers.now) table headers.now table }
{
    put_fields(headers.items(), out)
}

fn put_fields(headers: &[Header], out: &mut Bytes) -> Result<(), NoMemory>
    requires { All IsShort headers.now }
    ensures ok { OnOk result (out.new ≡ out.old ++ block_of headers.now) }
    ensures err { OnErr result (AppendsFront out.old out.new (block_of headers.now)) }
{
    for header in headers {
        put_field(header, out)?;
    }
    Ok(())
}

fn put_field(header: &Header, out: &mut Bytes) -> Result<(), NoMemory>
    requires { IsShort header.now }
    ensures ok { OnOk result (out.new ≡ out.old ++ field_of header.now) }
    ensures err { OnErr result (AppendsFront out.old out.new (field_of header.now)) }
{
    match place_of_pair(header) {
        Some(place) => put_integer(7, 128, place + 1, out),
        None => put_literal(header, out),
    }
}

fn put_literal(header: &Header, out: &mut Bytes) -> Result<(), NoMemory>
    requires { IsShort header.now }
    ensures ok { OnOk result (out.new ≡ out.old ++ literal_of header.now) }
    ensures err { OnErr result (AppendsFront out.old out.new (literal_of header.now)) }
{
    put_name(&header.name, out)?;
    put_string(&header.value, out)
}

fn put_name(name: &Bytes, out: &mut Bytes) -> Result<(), NoMemory>
    requires { length name.now ≤ largest_integer }
    ensures ok { OnOk result (out.new ≡ out.old ++ name_of name.now) }
    ensures err { OnErr result (AppendsFront out.old out.new (name_of name.now)) }
{
    match place_of_name(name.items()) {
        Some(place) => put_integer(4, 0, place + 1, out),
        None => {
            out.push(0)?;
            put_string(name, out)
        }
    }
}

fn put_string(text: &Bytes, out: &mut Bytes) -> Result<(), NoMemory>
    requires { length text.now ≤ largest_integer }
    ensures ok { OnOk result (out.new ≡ out.old ++ string_of text.now) }
    ensures err { OnErr result (AppendsFront out.old out.new (string_of text.now)) }
{
    put_integer(7, 0, text.len(), out)?;
    out.extend_from_slice(text.items())
}

/// An integer with a prefix of so many bits, above which the mark stands.
fn put_integer(bits: u32, mark: u8, n: usize, out: &mut Bytes) -> Result<(), NoMemory>
    requires bits { bits ≤ 7 }
    requires mark { mark + 2 ^ bits ≤ 256 }
    requires n { n ≤ largest_integer }
    ensures ok { OnOk result (out.new ≡ out.old ++ integer_of bits mark n) }
    ensures err { OnErr result (AppendsFront out.old out.new (integer_of bits mark n)) }
{
    let most = largest_in(bits);
    if n < most {
        return out.push(mark + n as u8);
    }
    out.push(mark + most as u8)?;
    put_above(n - most, out)
}

/// The largest number that so many bits hold.
fn largest_in(bits: u32) -> usize
    requires { bits ≤ 7 }
    ensures { result ≡ 2 ^ bits - 1 }
{
    (1 << bits) - 1
}

/// What is above the prefix.
fn put_above(n: usize, out: &mut Bytes) -> Result<(), NoMemory>
    requires { n ≤ largest_integer }
    ensures ok { OnOk result (out.new ≡ out.old ++ groups_of 4 n) }
    ensures err { OnErr result (AppendsFront out.old out.new (groups_of 4 n)) }
{
    put_groups(n as u64, out)
}
