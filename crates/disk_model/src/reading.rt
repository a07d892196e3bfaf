ghost use Rattle.std.specs.Prelude.{◌≡◌, ◌≤◌, ◌<◌, ◌+◌, ◌-◌, ◌^◌, ◌++◌, ℕ, List, [], Option};
ghost use Rattle.std.specs.Prelude.{length, take, drop, min, IfOk, OnOk, OnErr, IsErrOf};
ghost use Rattle.environment.specs.Faults.{HasCause, Rose};
ghost use Rattle.disk_model.specs.Calls.{CallEnds, WhereArmed};
ghost use Rattle.disk_model.specs.Content.{Content, Tells, ReadsAt};
ghost use Rattle.disk_model.specs.Reading.{ReadingEnds, piece_octets, reads_of};

use crate::disk::Disk;
use base_lists::{Bytes, NoMemory};
use environment::ReadFault;
use std::alloc::Global;

/// How many octets one read asks for.
const PIECE_OCTETS: usize = 65536;

/// Reads a disk whole: its length, and then its octets from the start in pieces of 65,536, until that length is
/// read or a read gives none. `Failed` where a call of the disk failed, behind which none is made; `NoMemory` where
/// there is no room for the octets and one piece.
pub fn read_whole<D: Disk>(alloc: Global, disk: &mut D) -> Result<Bytes, ReadFault>
    ensures octets { IfOk result (λ octets. Tells (D.told disk.old) (λ c. octets ≡ c.seen)) }
    ensures failed { IsErrOf result ReadFault.Failed
        → Rose (D.faults disk.old) (D.faults disk.new) }
    ensures keeps { D.told disk.new ≡ D.told disk.old }
    ensures calls { WhereArmed (D.fuse disk.old) (D.told disk.old) (λ c.
        ReadingEnds (1 + reads_of (length c.seen)) (D.fuse disk.old) (D.fuse disk.new) result) }
    ensures quiet { ¬ (IsErrOf result ReadFault.Failed) → D.faults disk.new ≡ D.faults disk.old }
{
    let size = disk.len()?;
    read_part(alloc, disk, 0, size)
}

/// Reads so many octets of a disk from a place on, in pieces of 65,536, or those up to its end.
/// It fails as `read_whole` does.
pub fn read_part<D: Disk>(
    alloc: Global,
    disk: &mut D,
    place: u64,
    size: u64,
) -> Result<Bytes, ReadFault>
    requires { place + size < 2 ^ 64 }
    ensures octets { IfOk result (λ octets.
        Tells (D.told disk.old) (λ c. octets ≡ take size (drop place c.seen))) }
    ensures failed { IsErrOf result ReadFault.Failed
        → Rose (D.faults disk.old) (D.faults disk.new) }
    ensures keeps { D.told disk.new ≡ D.told disk.old }
    ensures calls { WhereArmed (D.fuse disk.old) (D.told disk.old) (λ c.
        place + size ≤ length c.seen
        → ReadingEnds (reads_of size) (D.fuse disk.old) (D.fuse disk.new) result) }
    ensures quiet { ¬ (IsErrOf result ReadFault.Failed) → D.faults disk.new ≡ D.faults disk.old }
{
    let mut octets = room_for(alloc, size as usize)?;
    let mut buffer = zeros(alloc, PIECE_OCTETS)?;
    let piece = buffer.as_mut_slice();
    while (octets.len() as u64) < size {
        let left = size as usize - octets.len();
        if read_on(disk, place + octets.len() as u64, left, piece, &mut octets)? == 0 {
            break;
        }
    }
    Ok(Bytes::from_vec(octets))
}

/// Reads one piece more, at most of so many octets.
fn read_on<D: Disk>(
    disk: &mut D,
    place: u64,
    left: usize,
    piece: &mut [u8],
    octets: &mut Vec<u8>,
) -> Result<usize, ReadFault>
    requires { 0 < left }
    ensures more { IfOk result (λ n. (n ≤ min (length piece.new) left)
        × (octets.new.items ≡ octets.old.items ++ take n piece.new)) }
    ensures read { IfOk result
        (λ n. Tells (D.told disk.old) (λ c. ReadsAt c.seen place n piece.new)) }
    ensures fills { IfOk result (λ n. WhereArmed (D.fuse disk.old) (D.told disk.old) (λ c.
        n ≡ min (min (length piece.old) left) (length (drop place c.seen)))) }
    ensures failed { IsErrOf result ReadFault.Failed
        → Rose (D.faults disk.old) (D.faults disk.new) }
    ensures keeps { D.told disk.new ≡ D.told disk.old }
    ensures calls { ReadingEnds 1 (D.fuse disk.old) (D.fuse disk.new) result }
    ensures quiet { ¬ (IsErrOf result ReadFault.Failed) → D.faults disk.new ≡ D.faults disk.old }
{
    let count = disk.read(place, piece)?.min(left);
    add(octets, &piece[..count])?;
    Ok(count)
}

/// An empty list with room for this many octets.
fn room_for(alloc: Global, size: usize) -> Result<Vec<u8>, NoMemory>
    ensures { IfOk result (λ octets. octets.items ≡ []) }
{
    Ok(Vec::with_capacity(alloc, size)?)
}

/// This many zeros. The size is a parameter, so that no proof computes a list of that length.
fn zeros(alloc: Global, size: usize) -> Result<Vec<u8>, NoMemory>
    ensures { IfOk result (λ zeros. length zeros.items ≡ size) }
{
    Ok(vec![in alloc; 0u8; size]?)
}

fn add(octets: &mut Vec<u8>, piece: &[u8]) -> Result<(), NoMemory>
    ensures { OnOk result (octets.new.items ≡ octets.old.items ++ piece.now) }
{
    octets.extend_from_slice(piece)?;
    Ok(())
}
