//! What is said of an answer.
ghost use Rattle.std.specs.Prelude.{◌≡◌, ◌++◌, IfOk, OnOk, codes};
ghost use Rattle.std.specs.List.{flat_map};
ghost use Rattle.gnmi_data_msg.specs.Parts.{IsReadAs};
ghost use Rattle.ask_command.specs.Printing.{MakesText, said_of, said_of_fault, said_of_reply, reply_text, note_lines, notes_text, model_line, encoding_line, capabilities_text, quoted_line, number_line, Prints, saying, bad_answer, no_answer};

use crate::ending::Ending;
use crate::printing::{out_of_memory, print};
use crate::request::Request;
use base_kinds::{Copied, Note, Value};
use base_lists::{Bytes, NoMemory, Text};
use environment::Sink;
use gnmi_client_msg::{
    Capabilities, ServedEncoding, ServedModel, read_capabilities, read_get_reply, read_set_reply,
};
use gnmi_data_msg::MsgFault;
use grpc_client::CallFault;
use log_text::{put_number_line, put_rows};
use std::alloc::Global;
use value_core::value_text;

/// Adds the rows of a Notification and its stamp, one a line.
fn put_note(alloc: Global, note: &Note, out: &mut Bytes) -> Result<(), NoMemory>
    ensures { OnOk result (out.new ≡ out.old ++ note_lines note.now) }
{
    put_rows(alloc, b"row ", note.updates.items(), out)?;
    put_number_line(alloc, b"state ", note.stamp, out)
}

fn put_notes(alloc: Global, notes: &[Note], out: &mut Bytes) -> Result<(), NoMemory>
    ensures { OnOk result (out.new ≡ out.old ++ notes_text notes.now) }
{
    for note in notes {
        put_note(alloc, note, out)?;
    }
    Ok(())
}

/// Adds a line of this front and a text in quotes.
fn put_quoted_line(
    alloc: Global,
    front: &[u8],
    text: &Text,
    out: &mut Bytes,
) -> Result<(), NoMemory>
    ensures { OnOk result (out.new ≡ out.old ++ quoted_line front.now text.now) }
{
    out.extend_from_slice(front)?;
    value_text(alloc, &Value::Text(text.copy(alloc)?), out)?;
    out.extend_from_slice(b"\n")
}

fn put_models(alloc: Global, models: &[ServedModel], out: &mut Bytes) -> Result<(), NoMemory>
    ensures { OnOk result (out.new ≡ out.old ++ flat_map model_line models.now) }
{
    for model in models {
        put_quoted_line(alloc, b"model ", &model.name, out)?;
    }
    Ok(())
}

fn put_encoding(alloc: Global, encoding: ServedEncoding, out: &mut Bytes) -> Result<(), NoMemory>
    ensures { OnOk result (out.new ≡ out.old ++ encoding_line encoding) }
{
    match encoding {
        ServedEncoding::Json => out.extend_from_slice(b"encoding JSON\n"),
        ServedEncoding::Bytes => out.extend_from_slice(b"encoding BYTES\n"),
        ServedEncoding::Proto => out.extend_from_slice(b"encoding PROTO\n"),
        ServedEncoding::Ascii => out.extend_from_slice(b"encoding ASCII\n"),
        ServedEncoding::JsonIetf => out.extend_from_slice(b"encoding JSON_IETF\n"),
        ServedEncoding::Other(number) => put_number_line(alloc, b"encoding ", number, out),
    }
}

fn put_encodings(
    alloc: Global,
    encodings: &[ServedEncoding],
    out: &mut Bytes,
) -> Result<(), NoMemory>
    ensures { OnOk result (out.new ≡ out.old ++ flat_map encoding_line encodings.now) }
{
    for encoding in encodings {
        put_encoding(alloc, *encoding, out)?;
    }
    Ok(())
}

/// Adds the version, the models and the encodings, one a line.
fn put_capabilities(
    alloc: Global,
    capabilities: &Capabilities,
    out: &mut Bytes,
) -> Result<(), NoMemory>
    ensures { OnOk result (out.new ≡ out.old ++ capabilities_text capabilities.now) }
{
    put_quoted_line(alloc, b"version ", &capabilities.version, out)?;
    put_models(alloc, capabilities.models.items(), out)?;
    put_encodings(alloc, capabilities.encodings.items(), out)
}

/// What is printed of a reply to the request.
fn reply_text(alloc: Global, request: &Request, octets: &[u8]) -> Result<Bytes, MsgFault>
    ensures { IsReadAs result (reply_text request.now octets.now) }
{
    let mut text = Bytes::empty(alloc);
    match request {
        Request::Capabilities => {
            let capabilities = read_capabilities(alloc, octets)?;
            put_capabilities(alloc, &capabilities, &mut text)?;
        }
        Request::Get(_) => {
            let notes = read_get_reply(alloc, octets)?;
            put_notes(alloc, notes.items(), &mut text)?;
        }
        Request::Set(_) => {
            let stamp = read_set_reply(alloc, octets)?;
            put_number_line(alloc, b"ok ", stamp, &mut text)?;
        }
    }
    Ok(text)
}

/// Says of a reply what it tells.
fn say_reply<S: Sink>(alloc: Global, request: &Request, octets: &Bytes, output: &mut S) -> Ending
    ensures { MakesText (said_of_reply request.now octets.now) (S.seen output.old) (S.seen output.new)
        result }
{
    match reply_text(alloc, request, octets.items()) {
        Ok(text) => print(text.items(), Ending::Done, output),
        Err(MsgFault::BadMessage) => say_bad_answer(output),
        Err(MsgFault::NoMemory) => out_of_memory(output),
    }
}

/// The line that says with which code the target refused the request.
fn refusal_line(alloc: Global, code: u32) -> Result<Bytes, NoMemory>
    ensures { IfOk result (λ line. line ≡ number_line (codes "refused ") code) }
{
    let mut line = Bytes::empty(alloc);
    put_number_line(alloc, b"refused ", u64::from(code), &mut line)?;
    Ok(line)
}

/// Says that the target refused the request.
fn say_refusal<S: Sink>(alloc: Global, code: u32, output: &mut S) -> Ending
    ensures { MakesText (saying (number_line (codes "refused ") code) Ending.Refused)
        (S.seen output.old) (S.seen output.new) result }
{
    match refusal_line(alloc, code) {
        Ok(line) => print(line.items(), Ending::Refused, output),
        Err(_) => out_of_memory(output),
    }
}

/// Says that the answer is none that this client can read.
fn say_bad_answer<S: Sink>(output: &mut S) -> Ending
    ensures { Prints bad_answer (S.seen output.old) (S.seen output.new) result }
{
    print(b"bad answer\n", Ending::BadAnswer, output)
}

/// Says that there is no answer.
pub(crate) fn say_no_answer<S: Sink>(output: &mut S) -> Ending
    ensures { Prints no_answer (S.seen output.old) (S.seen output.new) result }
{
    print(b"no answer\n", Ending::NoAnswer, output)
}

/// Says why there is no reply.
fn say_fault<S: Sink>(alloc: Global, why: CallFault, output: &mut S) -> Ending
    ensures { MakesText (said_of_fault why) (S.seen output.old) (S.seen output.new) result }
{
    match why {
        CallFault::Refused(code) => say_refusal(alloc, code, output),
        CallFault::Http(_) => say_bad_answer(output),
        CallFault::NoStatus => say_bad_answer(output),
        CallFault::BadReply => say_bad_answer(output),
        CallFault::Protocol(_) => say_bad_answer(output),
        CallFault::Closed => say_no_answer(output),
        CallFault::ReadFault => say_no_answer(output),
        CallFault::WriteFault => say_no_answer(output),
        CallFault::Spent => say_no_answer(output),
        CallFault::NoMemory => out_of_memory(output),
    }
}

/// Says of the answer to a request what it tells.
pub(crate) fn say_answer<S: Sink>(
    alloc: Global,
    request: &Request,
    answer: &Result<Bytes, CallFault>,
    output: &mut S,
) -> Ending
    ensures { MakesText (said_of request.now answer.now) (S.seen output.old) (S.seen output.new)
        result }
{
    match answer {
        Ok(octets) => say_reply(alloc, request, octets, output),
        Err(why) => say_fault(alloc, *why, output),
    }
}
