// The Subscribe calls that a script has open.
ghost use Rattle.std.specs.Prelude.{◌≡◌, ◌<◌, OnOk, IfSome, length, option_map, position};
ghost use Rattle.script_run.specs.OpenCalls.{call_named, has_name, with_call, without_call};

use crate::open_call::{OpenPoll, OpenStream};
use base_kinds::{NoMemory, Text};

#[derive(Drop)]
pub enum OpenCall {
    Stream(OpenStream),
    Poll(OpenPoll),
}

#[derive(Drop)]
pub struct NamedCall {
    pub name: Text,
    pub call: OpenCall,
}

fn has_name(call: &NamedCall, name: &Text) -> bool
    ensures { result ≡ has_name name.now call.now }
{
    call.name.octets() == name.octets()
}

/// The call of this name.
pub fn call_named<'a>(calls: &'a [NamedCall], name: &Text) -> Option<&'a OpenCall>
    ensures { option_map (λ c. c.now) result ≡ call_named name.now calls.now }
{
    match place_of(calls, name) {
        Some(place) => Some(&calls[place].call),
        None => None,
    }
}

/// Where the call of this name stands.
fn place_of(calls: &[NamedCall], name: &Text) -> Option<usize>
    ensures value { result ≡ position (has_name name.now) calls.now }
    ensures inside { IfSome result (λ place. place < length calls.now) }
{
    calls.iter().position(|call| has_name(call, name))
}

/// Takes the call of this name out.
pub fn take_call(calls: &mut Vec<NamedCall>, name: &Text) -> Option<OpenCall>
    ensures call { result ≡ call_named name.now calls.old.items }
    ensures others { calls.new.items ≡ without_call name.now calls.old.items }
{
    match place_of(calls, name) {
        Some(place) => Some(calls.remove(place).call),
        None => None,
    }
}

/// Puts a call of this name behind the others.
pub fn put_call(calls: &mut Vec<NamedCall>, name: Text, call: OpenCall) -> Result<(), NoMemory>
    ensures { OnOk result (calls.new.items ≡ with_call name call calls.old.items) }
{
    calls.push(NamedCall { name, call })?;
    Ok(())
}
