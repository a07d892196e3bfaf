//! What the windows let through.
ghost use Rattle.std.specs.Prelude.{◌≡◌, ◌≤◌, pos, ◌+ℤ◌, length, OnOk};
ghost use Rattle.h2_windows.specs.Windows.{room};
ghost use Rattle.h2_windows.specs.Shares.{share, window_of};
ghost use Rattle.h2_windows.specs.Written.{Writes};
ghost use Rattle.h2_windows.specs.Sending.{sent};

use crate::frames::put_data;
use crate::stream::Stream;
use crate::window::Window;
use environment::{Failed, Sink};

/// How many octets of a stream may go now.
fn share(initial: u32, window: &Window, stream: &Stream) -> usize
    ensures count { result ≡ share initial window.now stream.now }
    ensures waits { result ≤ length stream.now.pending }
    ensures connection { result ≤ room (pos 0 +ℤ window.now) }
    ensures own { result ≤ room (window_of initial stream.now) }
{
    let room = window.room(0).min(stream.credit.room(initial));
    stream.pending.len().min(room)
}

/// Each stream sends what both windows let through, the first one first. `initial` is the peer's initial window, `window`
/// the connection's. Takes no memory. After an `Err` the windows and the streams mean nothing any more.
#[tactic(auto, using(crate::proofs::Fronts::wrote_all))]
pub fn send_allowed<S: Sink>(
    sink: &mut S,
    initial: u32,
    window: &mut Window,
    streams: &mut [Stream],
) -> Result<(), Failed>
    ensures writes { Writes result (sent initial window.old streams.old).frames
        (S.seen sink.old) (S.seen sink.new) }
    ensures window { OnOk result (window.new ≡ (sent initial window.old streams.old).window) }
    ensures streams { OnOk result (streams.new ≡ (sent initial window.old streams.old).streams) }
{
    for stream in streams.iter_mut() {
        let count = share(initial, window, stream);
        put_data(sink, stream.id, &stream.pending.octets()[..count])?;
        window.spend(0, count);
        stream.credit.spend(initial, count);
        stream.pending.advance(count);
    }
    Ok(())
}
