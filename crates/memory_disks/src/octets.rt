ghost use Rattle.std.specs.Prelude.{◌≡◌, ◌++◌, ◌-◌, ◌≤◌, ◌+◌, length, take, drop, replicate, min};
ghost use Rattle.std.specs.Prelude.{OnOk, OnErr};
ghost use Rattle.disk_model.specs.Images.{with_range_filled};
ghost use Rattle.memory_disks.specs.Octets.{octets_after_write, with_ranges_filled};

use std::alloc::AllocError;

/// Writes a piece at its place, with zeros before it where it begins past the end.
pub fn write_over(octets: &mut Vec<u8>, place: u64, piece: &[u8]) -> Result<(), AllocError>
    ensures ok { OnOk result
        (octets.new.items ≡ octets_after_write place piece.now octets.old.items) }
    ensures err { OnErr result (octets.new.items ≡ octets.old.items) }
{
    if piece.is_empty() {
        return Ok(());
    }
    let place = place as usize;
    let Some(end) = place.checked_add(piece.len()) else {
        return Err(AllocError);
    };
    grow(octets, end)?;
    lay(octets, place, piece);
    Ok(())
}

fn grow(octets: &mut Vec<u8>, end: usize) -> Result<(), AllocError>
    ensures ok { OnOk result (octets.new.items
        ≡ octets.old.items ++ replicate (end - length octets.old.items) 0) }
    ensures err { OnErr result (octets.new.items ≡ octets.old.items) }
{
    if octets.len() < end {
        octets.resize(end, 0)?;
    }
    Ok(())
}

fn lay(octets: &mut Vec<u8>, place: usize, piece: &[u8])
    requires { place + length piece.now ≤ length octets.old.items }
    ensures { octets.new.items ≡ take place octets.old.items
        ++ (piece.now ++ drop (place + length piece.now) octets.old.items) }
{
    octets[place..place + piece.len()].copy_from_slice(piece);
}

/// Copies what is there from a place on, as far as there is room.
pub fn copy_from(octets: &[u8], place: u64, into: &mut [u8]) -> usize
    ensures bound { result ≤ length into.new }
    ensures octets { take result into.new ≡ take result (drop place octets.now) }
    ensures count { result ≡ min (length into.old) (length (drop place octets.now)) }
{
    let rest = match octets.get(place as usize..) {
        Some(rest) => rest,
        None => &[],
    };
    let count = into.len().min(rest.len());
    into[..count].copy_from_slice(&rest[..count]);
    count
}

/// Puts one octet at these places, as far as they are there.
pub fn paint(octets: &mut Vec<u8>, place: u64, count: usize, octet: u8)
    ensures { octets.new.items ≡ with_range_filled octet place count octets.old.items }
{
    let start = place as usize;
    if start < octets.len() {
        let count = count.min(octets.len() - start);
        fill(octets, start, count, octet);
    }
}

fn fill(octets: &mut Vec<u8>, start: usize, count: usize, octet: u8)
    requires { start + count ≤ length octets.old.items }
    ensures { octets.new.items ≡ take start octets.old.items
        ++ (replicate count octet ++ drop (start + count) octets.old.items) }
{
    octets[start..start + count].fill(octet);
}

/// Puts one octet at the places of all these ranges.
pub fn paint_all(octets: &mut Vec<u8>, ranges: &[(u64, usize)], octet: u8)
    ensures { octets.new.items ≡ with_ranges_filled octet ranges.now octets.old.items }
{
    for range in ranges {
        paint(octets, range.0, range.1, octet);
    }
}
