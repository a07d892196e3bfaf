//! How much waits on streams.
ghost use Rattle.std.specs.Prelude.{◌≡◌, ◌≤◌, ◌*◌, length};
ghost use Rattle.h2_windows.specs.Bounds.{largest_pending};
ghost use Rattle.h2_windows.specs.Holding.{waiting, counted};

use crate::stream::Stream;

/// How many octets wait on the streams: at most 123,600,005 on each. The count stands still at the end of a u64.
pub fn held(streams: &[Stream]) -> usize
    ensures is { result ≡ counted (waiting streams.now) }
    ensures bound { result ≤ largest_pending * length streams.now }
{
    let mut count: usize = 0;
    for stream in streams {
        count = count.saturating_add(stream.pending.len());
    }
    count
}
