//! What a list of fields holds under a number.
ghost use Rattle.std.specs.Prelude.{◌≡◌, ◌≢◌, ◌↔◌, ◌≤◌, ℕ, [], ◌++◌, length, drop, filter, Some, unwrap_or, IsTrue, IfOk, OnOk, OnErr, option_map};
ghost use Rattle.base_lists.specs.Fronts.{AppendsFront};
ghost use Rattle.pb_wire.specs.Message.{wire_type, IsWithin, AreWithin};
ghost use Rattle.pb_wire.specs.Values.{varint_in, octets_in, occurrences, last_scalar, last_octets, joined_octets, is_member, one_of, entry_of};

use crate::field::{Body, Field};
use base_lists::{Bytes, NoMemory};

/// The field's number, if it is a varint under this field number. Takes no memory.
pub fn varint_of(field: &Field, number: u32) -> Option<u64>
    ensures { result ≡ varint_in number field.now }
{
    match field.body {
        Body::Varint(value) if field.number == number => Some(value),
        _ => None,
    }
}

/// The last varint of the number ("Last One Wins"). Takes no memory.
pub fn last_varint(fields: &[Field], number: u32) -> Option<u64>
    ensures { result ≡ last_scalar number fields.now }
{
    let mut last = None;
    for field in fields {
        if let Some(value) = varint_of(field, number) {
            last = Some(value);
        }
    }
    last
}

/// The field's octets, if it holds octets under this field number. Takes no memory.
pub fn octets_of<'a>(octets: &'a [u8], field: &Field, number: u32) -> Option<&'a [u8]>
    requires { IsWithin (length octets.now) field.now.body }
    ensures { option_map (λ x. x.now) result ≡ octets_in octets.now number field.now }
{
    match field.body {
        Body::Octets(from, to) if field.number == number => Some(&octets[from..to]),
        _ => None,
    }
}

/// The octets of the last occurrence of the number: a single string, or `bytes`. Takes no memory.
pub fn last_octets<'a>(octets: &'a [u8], fields: &[Field], number: u32) -> Option<&'a [u8]>
    requires { AreWithin octets.now fields.now }
    ensures { option_map (λ x. x.now) result ≡ last_octets octets.now number fields.now }
{
    let mut last = None;
    for field in fields {
        if let Some(piece) = octets_of(octets, field, number) {
            last = Some(piece);
        }
    }
    last
}

/// Adds the octets of each occurrence of the number, one after another, and answers whether there is one.
pub fn joined(
    octets: &[u8],
    fields: &[Field],
    number: u32,
    out: &mut Bytes,
) -> Result<bool, NoMemory>
    requires { AreWithin octets.now fields.now }
    ensures stands { IfOk result
        (λ there. IsTrue there ↔ (occurrences octets.now number fields.now ≢ [])) }
    ensures ok { OnOk result
        (out.new ≡ out.old ++ joined_octets octets.now number fields.now) }
    // What was added before memory ran out is a prefix of what had to be.
    ensures err { OnErr result
        (AppendsFront out.old out.new (joined_octets octets.now number fields.now)) }
{
    let mut there = false;
    for field in fields {
        if let Some(piece) = octets_of(octets, field, number) {
            out.extend_from_slice(piece)?;
            there = true;
        }
    }
    Ok(there)
}

/// The key and the value of a map's entry, whose octets and fields these are: texts under 1 and 2, empty where they are
/// absent. Takes no memory.
pub fn entry_of<'a>(entry: &'a [u8], fields: &[Field]) -> (&'a [u8], &'a [u8])
    requires { AreWithin entry.now fields.now }
    ensures { (result.0.now, result.1.now) ≡ entry_of entry.now fields.now }
{
    let key = last_octets(entry, fields, 1).unwrap_or(&[]);
    let value = last_octets(entry, fields, 2).unwrap_or(&[]);
    (key, value)
}

/// The fields from the last run of a oneof's members on, which are given by their numbers and wire types: the members
/// among these are what the oneof holds. Takes no memory.
pub fn one_of<'a>(fields: &'a [Field], members: &[(u32, u8)]) -> &'a [Field]
    ensures members { filter (is_member members.now) result.now ≡ one_of members.now fields.now }
    ensures is_end { (from : ℕ) × (result.now ≡ drop from fields.now) }
{
    &fields[run_of(fields, members)..]
}

/// The place at which the last run of members begins, or 0.
fn run_of(fields: &[Field], members: &[(u32, u8)]) -> usize
    ensures within { result ≤ length fields.now }
    ensures members { filter (is_member members.now) (drop result fields.now)
        ≡ one_of members.now fields.now }
{
    let mut run = 0;
    let mut last = None;
    for at in 0..fields.len() {
        let field = &fields[at];
        if is_member(field, members) {
            run = begin_of(last, field.number, run, at);
            last = Some(field.number);
        }
    }
    run
}

/// Where the run of the number begins, of which one more stands at a place: where the last run did, if it has that number.
fn begin_of(last: Option<u32>, number: u32, run: usize, at: usize) -> usize
    ensures same { last ≡ Some number → result ≡ run }
    ensures other { (last ≡ Some number → ⊥) → result ≡ at }
{
    match last {
        Some(last) if last == number => run,
        _ => at,
    }
}

/// Whether the field is one of the oneof's members.
fn is_member(field: &Field, members: &[(u32, u8)]) -> bool
    ensures { result ≡ is_member members.now field.now }
{
    members.iter().any(|member| member.0 == field.number && member.1 == wire_type(&field.body))
}

/// protobuf.dev, "Encoding", "Message Structure".
fn wire_type(body: &Body) -> u8
    ensures { result ≡ wire_type body.now }
{
    match body {
        Body::Varint(_) => 0,
        Body::Eight(_) => 1,
        Body::Octets(_, _) => 2,
        Body::Four(_) => 5,
    }
}
