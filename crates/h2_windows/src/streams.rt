//! The streams of a connection that are open and that this side hasn't ended, by rising number.
ghost use Rattle.std.specs.Prelude.{◌≡◌, ◌^◌, ◌<◌, ◌≤◌, ◌&&◌, pos, ◌+ℤ◌, ◌≤ℤ◌, false, nat_lt, OnOk, OnErr, length};
ghost use Rattle.std.specs.List.{list_any, position_or_len};
ghost use Rattle.h2_windows.specs.Windows.{passes};
ghost use Rattle.h2_windows.specs.Shares.{window_of};
ghost use Rattle.h2_windows.specs.Streams.{is_stream, new_stream, opened, without, granted, granted_to};

use crate::pending::Pending;
use crate::stream::Stream;
use crate::window::Window;
use base_lists::NoMemory;
use std::alloc::Global;

/// Whether a new initial window takes a stream's window above the largest.
pub fn initial_passes(initial: u32, streams: &[Stream]) -> bool
    ensures { result ≡ list_any (λ s. passes (window_of initial s)) streams.now }
{
    streams.iter().any(|s| s.credit.passes(initial, 0))
}

/// Whether an increment takes the stream's window above the largest.
pub fn stream_passes(initial: u32, id: u32, increment: u32, streams: &[Stream]) -> bool
    ensures { result ≡ list_any
        (λ s. is_stream id s && passes (window_of initial s +ℤ pos increment)) streams.now }
{
    streams
        .iter()
        .any(|s| s.id == id && s.credit.passes(initial, increment))
}

fn grant_to(initial: u32, id: u32, increment: u32, stream: &mut Stream)
    requires { (is_stream id stream.old
        && passes (window_of initial stream.old +ℤ pos increment)) ≡ false }
    ensures { stream.new ≡ granted_to id increment stream.old }
{
    if stream.id == id {
        stream.credit.grow(initial, increment);
    }
}

/// Grants a stream what WINDOW_UPDATE says. Nothing changes where no stream has the number.
pub fn grant(initial_window: u32, id: u32, increment: u32, streams: &mut [Stream])
    requires { list_any
        (λ s. is_stream id s && passes (window_of initial_window s +ℤ pos increment))
        streams.old ≡ false }
    ensures { streams.new ≡ granted id increment streams.old }
{
    for stream in streams.iter_mut() {
        grant_to(initial_window, id, increment, stream);
    }
}

/// Whether one of the streams has the number.
pub fn is_open(id: u32, streams: &[Stream]) -> bool
    ensures { result ≡ list_any (is_stream id) streams.now }
{
    streams.iter().any(|s| s.id == id)
}

/// Where the stream that has the number stands; behind all of them where none has it.
pub fn place_of(id: u32, streams: &[Stream]) -> usize
    ensures place { result ≡ position_or_len (is_stream id) streams.now }
    ensures within { result ≤ length streams.now }
{
    for (place, stream) in streams.iter().enumerate() {
        if stream.id == id {
            return place;
        }
    }
    streams.len()
}

/// How many streams stand before a new one.
fn place_for(id: u32, streams: &[Stream]) -> usize
    ensures place { result ≡ position_or_len (λ s. nat_lt id s.id) streams.now }
    ensures within { result ≤ length streams.now }
{
    for (place, stream) in streams.iter().enumerate() {
        if id < stream.id {
            return place;
        }
    }
    streams.len()
}

/// Opens a stream, unless it is open. Without memory for it nothing changes.
pub fn open(alloc: Global, id: u32, streams: &mut Vec<Stream>) -> Result<(), NoMemory>
    ensures ok { OnOk result (streams.new.items ≡ opened id streams.old.items) }
    ensures err { OnErr result (streams.new.items ≡ streams.old.items) }
{
    if is_open(id, streams) {
        return Ok(());
    }
    let place = place_for(id, streams);
    let stream = Stream {
        id,
        begun: false,
        credit: Window::of(0),
        taken: 0,
        pending: Pending::none(alloc),
    };
    streams.insert(place, stream)?;
    Ok(())
}

/// Takes the stream out, and what waits on it.
pub fn close(id: u32, streams: &mut Vec<Stream>)
    ensures { streams.new.items ≡ without id streams.old.items }
{
    streams.retain(|s| s.id != id);
}
