ghost use Rattle.std.specs.Prelude.{◌≡◌, ◌^◌, ◌<◌, ◌++◌, ◌⊎◌, length, take, OnOk, OnErr};
ghost use Rattle.h2_frame.specs.Frames.{spelling, head_spelling, frame_of, Fits};

use crate::frame::Head;
use base_lists::{Bytes, NoMemory};

/// Writes a frame after what is there.
pub fn write_frame(head: &Head, payload: &[u8], out: &mut Bytes) -> Result<(), NoMemory>
    requires payload_length { length payload.now ≡ head.now.length }
    requires length_fits { head.now.length < 2 ^ 24 }
    requires stream_fits { head.now.stream < 2 ^ 31 }

    ensures ok { OnOk result (out.new ≡ out.old ++ spelling (frame_of head.now payload.now)) }
    ensures fits { Fits (frame_of head.now payload.now) }

    // Without memory for all of it, nothing was written, or the nine octets before the payload were.
    ensures err { OnErr result ((out.new ≡ out.old)
        ⊎ (out.new ≡ out.old ++ take 9 (spelling (frame_of head.now payload.now)))) }
{
    out.extend_from_slice(&head_octets(head))?;
    out.extend_from_slice(payload)
}

/// The nine octets that stand before a frame's payload, the highest of each number first. Takes no memory.
pub fn head_octets(head: &Head) -> [u8; 9]
    ensures { result ≡ head_spelling head.now }
{
    let [_, l0, l1, l2] = head.length.to_be_bytes();
    let [s0, s1, s2, s3] = head.stream.to_be_bytes();
    [l0, l1, l2, head.kind, head.flags, s0, s1, s2, s3]
}
