ghost use Rattle.std.specs.Prelude.{◌≡◌, ◌<◌, ◌^◌, IfOk};
ghost use Rattle.generated_sets.specs.Connections.{connection_of_sets, opening};

use crate::draws::{drawn_at, state_behind};
use crate::frames::{put_frame, put_set};
use base_lists::{Bytes, NoMemory};
use h2_frame::{GOAWAY, SETTINGS};
use std::alloc::Global;

/// The octets of a client that makes so many Sets, each of the mtu of an interface, drawn from this seed.
pub fn connection_of_sets(alloc: Global, seed: u64, count: u32) -> Result<Bytes, NoMemory>
    requires { count < 2 ^ 30 }
    ensures { IfOk result (λ octets. octets ≡ connection_of_sets seed count) }
{
    let mut out = Bytes::of(alloc, b"PRI * HTTP/2.0\r\n\r\nSM\r\n\r\n")?;
    put_frame(SETTINGS, 0, 0, &[], &mut out)?;
    let mut left = count;
    let mut stream = 1;
    let mut state = seed;
    'sets: while 0 < left {
        state = state_behind(state);
        put_set(alloc, stream, drawn_at(state), &mut out)?;
        left -= 1;
        stream += 2;
    }
    put_frame(GOAWAY, 0, 0, &[0; 8], &mut out)?;
    Ok(out)
}
