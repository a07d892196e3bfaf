//! Streams on which something is said.
ghost use Rattle.std.specs.Prelude.{◌≡◌, ◌≤◌, ◌&&◌, length, option_map};
ghost use Rattle.h2_windows.specs.Bounds.{largest_pending};
ghost use Rattle.h2_send.specs.Offers.{ready_on, has_begun, loaded, taken_on, waits};
ghost use Rattle.std.specs.List.{list_any, find};
ghost use Rattle.h2_windows.specs.Streams.{is_stream};

use base_lists::Bytes;
use h2_events::Ready;
use h2_windows::{Pending, Stream, is_open, place_of};

fn waits_on(id: u32, streams: &[Stream]) -> bool
    ensures { result ≡ list_any (λ s. is_stream id s && waits s) streams.now }
{
    streams.iter().any(|s| s.id == id && 0 < s.pending.len())
}

/// Whether something can be said on the stream that has the number.
pub(crate) fn ready_on(id: u32, streams: &[Stream]) -> Ready
    ensures { result ≡ ready_on id streams.now }
{
    if waits_on(id, streams) {
        Ready::Busy
    } else if is_open(id, streams) {
        Ready::Free
    } else {
        Ready::Gone
    }
}

/// Whether the HEADERS of the stream that has the number are sent.
pub(crate) fn has_begun(id: u32, streams: &[Stream]) -> bool
    ensures { result ≡ has_begun id streams.now }
{
    streams.iter().any(|s| s.id == id && s.begun)
}

fn stream_of<'a>(id: u32, streams: &'a [Stream]) -> Option<&'a Stream>
    ensures { option_map (λ s. s.now) result ≡ find (is_stream id) streams.now }
{
    streams.iter().find(|stream| stream.id == id)
}

/// How many octets were taken on the stream that has the number, or 0 where none has it.
pub(crate) fn taken_on(id: u32, streams: &[Stream]) -> u64
    ensures { result ≡ taken_on id streams.now }
{
    match stream_of(id, streams) {
        Some(stream) => stream.taken,
        None => 0,
    }
}

/// Puts octets on the stream that has the number. Nothing changes where none has it.
pub(crate) fn load(id: u32, octets: Bytes, streams: &mut Vec<Stream>)
    requires { length octets ≤ largest_pending }
    ensures { streams.new.items ≡ loaded id octets streams.old.items }
{
    let place = place_of(id, streams);
    if place < streams.len() {
        let stream = &mut streams[place];
        stream.begun = true;
        stream.taken = stream.taken.saturating_add(octets.len() as u64);
        stream.pending = Pending::of(octets);
    }
}
