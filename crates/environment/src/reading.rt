ghost use Rattle.std.specs.Prelude.{◌≡◌, IfOk, IsErrOf};
ghost use Rattle.environment.specs.Input.{ReadsToLimit, FailedToLimit, StoppedToLimit};

use crate::streams::{Failed, Source};
use base_lists::{Bytes, NoMemory};
use std::alloc::Global;

/// Why a source could not be read.
#[derive(Clone, Copy, Debug, PartialEq, Eq)]
pub enum ReadFault {
    Failed,
    NoMemory,
}

impl From<Failed> for ReadFault {
    ghost use Rattle.environment.specs.declared.reading.ReadFault.TheVariants.{Failed as ReadFailed};

    ghost from_gives = { λ _ e. e ≡ ReadFailed };

    fn from(_e: Failed) -> ReadFault {
        ReadFault::Failed
    }
}

impl From<NoMemory> for ReadFault {
    ghost use Rattle.environment.specs.declared.reading.ReadFault.TheVariants.{NoMemory as OutOfMemory};

    ghost from_gives = { λ _ e. e ≡ OutOfMemory };

    fn from(_e: NoMemory) -> ReadFault {
        ReadFault::NoMemory
    }
}

/// Octets that are asked for in one read.
const PIECE: usize = 4096;

/// Reads to the end of the source, or until one octet more than the limit is taken.
/// After an `Err` the octets that were read so far are lost: `Failed` behind a read that failed, `NoMemory` where the
/// octets found no room.
pub fn read_to_limit<S: Source>(
    alloc: Global,
    source: &mut S,
    limit: u32,
) -> Result<Bytes, ReadFault>
    ensures ok { IfOk result (λ octets.
        ReadsToLimit limit octets (S.seen source.old) (S.seen source.new)) }
    ensures failed { IsErrOf result ReadFault.Failed →
        FailedToLimit limit (S.seen source.old) (S.seen source.new) }
    ensures memory { IsErrOf result ReadFault.NoMemory →
        StoppedToLimit limit (S.seen source.old) (S.seen source.new) }
{
    let most = limit as usize + 1;
    let mut octets = Bytes::empty(alloc);
    let mut buffer = [0u8; PIECE];
    while octets.len() < most {
        let room = PIECE.min(most - octets.len());
        let count = source.read(&mut buffer[..room])?;
        if count == 0 {
            break;
        }
        octets.extend_from_slice(&buffer[..count])?;
    }
    Ok(octets)
}
