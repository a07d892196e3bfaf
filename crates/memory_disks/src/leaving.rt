// The steps of a disk that stops, over its parts.
ghost use Rattle.std.specs.Prelude.{◌≡◌, ◌++◌, ◌∷◌, [], ◌<◌, length, true, false, Some, IsSome};
ghost use Rattle.std.specs.Prelude.{OnOk, OnErr, vec_len, option_map};
ghost use Rattle.std.specs.Vec.{vec_capacity};
ghost use Rattle.memory_disks.specs.inner.Kept.{base_of};
ghost use Rattle.memory_disks.specs.Octets.{octets_after_write, octets_after_stop};
ghost use Rattle.memory_disks.specs.Octets.{with_ranges_filled};

use crate::octets::{paint, paint_all, write_over};
use base_kinds::Fill;
use std::alloc::{AllocError, Global};

/// Takes a copy before the first change since the last sync.
pub fn keep_base(alloc: Global, octets: &[u8], safe: &mut Option<Vec<u8>>) -> Result<(), AllocError>
    ensures ok { OnOk result (option_map (λ s. s.items) safe.new
        ≡ Some (base_of (option_map (λ s. s.items) safe.old) octets.now)) }
    ensures err { OnErr result (safe.new ≡ safe.old) }
{
    if safe.is_none() {
        *safe = Some(octets.to_vec(alloc)?);
    }
    Ok(())
}

/// Writes, and notes what was written.
pub fn write_noted(
    alloc: Global,
    octets: &mut Vec<u8>,
    safe: &mut Option<Vec<u8>>,
    written: &mut Vec<(u64, usize)>,
    place: u64,
    piece: &[u8],
) -> Result<(), AllocError>
    ensures base { base_of (option_map (λ s. s.items) safe.new) octets.new.items
        ≡ base_of (option_map (λ s. s.items) safe.old) octets.old.items }
    ensures octets_ok { OnOk result
        (octets.new.items ≡ octets_after_write place piece.now octets.old.items) }
    ensures octets_err { OnErr result (octets.new.items ≡ octets.old.items) }
    ensures written_ok { OnOk result
        (written.new.items ≡ written.old.items ++ (place, length piece.now) ∷ []) }
    ensures written_err { OnErr result (written.new.items ≡ written.old.items) }
{
    keep_base(alloc, octets, safe)?;
    written.reserve(1)?;
    write_over(octets, place, piece)?;
    note(written, place, piece.len());
    Ok(())
}

/// Notes a write, for which there is room.
fn note(written: &mut Vec<(u64, usize)>, place: u64, count: usize)
    requires { vec_len written.old < vec_capacity written.old }
    ensures { written.new.items ≡ written.old.items ++ (place, count) ∷ [] }
{
    written.push((place, count)).unwrap()
}

/// What a stop leaves, in place of the octets.
pub fn leave(octets: &mut Vec<u8>, safe: Option<Vec<u8>>, written: &[(u64, usize)], fill: Fill)
    ensures { octets.new.items ≡ octets_after_stop fill
        (base_of (option_map (λ s. s.items) safe) octets.old.items) octets.old.items written.now }
{
    match fill {
        Fill::Old => put_back(octets, safe),
        Fill::New => (),
        Fill::Octet(octet) => paint_all(octets, written, octet),
    }
}

/// What a stop in a write leaves, in place of the octets. Answers whether there was memory for the piece.
pub fn leave_written(
    octets: &mut Vec<u8>,
    safe: Option<Vec<u8>>,
    written: &[(u64, usize)],
    fill: Fill,
    place: u64,
    piece: &[u8],
) -> bool
    ensures made { result ≡ true → octets.new.items ≡ octets_after_stop fill
        (base_of (option_map (λ s. s.items) safe) octets.old.items)
        (octets_after_write place piece.now octets.old.items)
        (written.now ++ (place, length piece.now) ∷ []) }
    ensures not_made { result ≡ false → octets.new.items ≡ octets_after_stop fill
        (base_of (option_map (λ s. s.items) safe) octets.old.items) octets.old.items written.now }
{
    match fill {
        Fill::Old => {
            put_back(octets, safe);
            true
        }
        Fill::New => write_over(octets, place, piece).is_ok(),
        Fill::Octet(octet) => match write_over(octets, place, piece) {
            Ok(()) => {
                paint_with(octets, written, place, piece.len(), octet);
                true
            }
            Err(_) => {
                paint_all(octets, written, octet);
                false
            }
        },
    }
}

/// Puts one octet at the places of all these ranges, and of one more.
#[tactic(auto, using(crate::proofs::Laid::all_painted_more))]
fn paint_with(octets: &mut Vec<u8>, written: &[(u64, usize)], place: u64, count: usize, octet: u8)
    ensures { octets.new.items
        ≡ with_ranges_filled octet (written.now ++ (place, count) ∷ []) octets.old.items }
{
    paint_all(octets, written, octet);
    paint(octets, place, count, octet);
}

/// The octets of the last sync.
fn put_back(octets: &mut Vec<u8>, safe: Option<Vec<u8>>)
    ensures { octets.new.items ≡ base_of (option_map (λ s. s.items) safe) octets.old.items }
{
    if let Some(safe) = safe {
        *octets = safe;
    }
}
