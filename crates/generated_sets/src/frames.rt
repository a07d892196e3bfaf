ghost use Rattle.std.specs.Prelude.{◌≡◌, ◌<◌, ◌^◌, ◌++◌, length, IfOk, OnOk};
ghost use Rattle.grpc_core.specs.Messages.{framed};
ghost use Rattle.generated_sets.specs.Connections.{frame, frames_of_set, head_frame, message_frame, window_frame};
ghost use Rattle.generated_sets.specs.Messages.{set_request};

use crate::messages::set_request;
use base_lists::{Bytes, NoMemory};
use grpc_core::frame_message;
use h2_frame::{DATA, END_HEADERS, END_STREAM, HEADERS, Head, WINDOW_UPDATE, write_frame};
use std::alloc::Global;

/// The header fields of a call of Set.
const FIELDS: &[u8] = b"\x83\x86\x04\x0e/gnmi.gNMI/Set\x01\x01x\x0f\x10\x10application/grpc\
    \0\x02te\x08trailers\x0f\x2b\x01g\0\x0cgrpc-timeout\x025S";

/// Adds a frame.
pub(crate) fn put_frame(
    kind: u8,
    flags: u8,
    stream: u32,
    payload: &[u8],
    out: &mut Bytes,
) -> Result<(), NoMemory>
    requires stream { stream < 2 ^ 31 }
    requires length { length payload.now < 2 ^ 24 }
    ensures { OnOk result (out.new ≡ out.old ++ frame kind flags stream payload.now) }
{
    let head = Head {
        length: payload.len() as u32,
        kind,
        flags,
        stream,
    };
    write_frame(&head, payload, out)
}

fn put_window(out: &mut Bytes) -> Result<(), NoMemory>
    ensures { OnOk result (out.new ≡ out.old ++ window_frame) }
{
    put_frame(WINDOW_UPDATE, 0, 0, &[0, 0, 0, 128], out)
}

#[tactic(auto, unfolding(hpack_block::specs::Written::block_of, hpack_block::specs::StaticTable::static_table))]
fn put_head(stream: u32, out: &mut Bytes) -> Result<(), NoMemory>
    requires { stream < 2 ^ 31 }
    ensures { OnOk result (out.new ≡ out.old ++ head_frame stream) }
{
    put_frame(HEADERS, END_HEADERS, stream, FIELDS, out)
}

fn framed_request(alloc: Global, drawn: u64) -> Result<Bytes, NoMemory>
    ensures octets { IfOk result (λ octets. octets ≡ framed (set_request drawn)) }
    ensures small { IfOk result (λ octets. length octets < 2 ^ 24) }
{
    let request = set_request(alloc, drawn)?;
    let mut octets = Bytes::empty(alloc);
    frame_message(request.items(), &mut octets)?;
    Ok(octets)
}

fn put_message(alloc: Global, stream: u32, drawn: u64, out: &mut Bytes) -> Result<(), NoMemory>
    requires { stream < 2 ^ 31 }
    ensures { OnOk result (out.new ≡ out.old ++ message_frame stream drawn) }
{
    let octets = framed_request(alloc, drawn)?;
    put_frame(DATA, END_STREAM, stream, octets.items(), out)
}

/// Adds the frames of the Set that is drawn so.
pub(crate) fn put_set(
    alloc: Global,
    stream: u32,
    drawn: u64,
    out: &mut Bytes,
) -> Result<(), NoMemory>
    requires { stream < 2 ^ 31 }
    ensures { OnOk result (out.new ≡ out.old ++ frames_of_set stream drawn) }
{
    put_window(out)?;
    put_head(stream, out)?;
    put_message(alloc, stream, drawn, out)
}
