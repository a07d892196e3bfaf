ghost use Rattle.std.specs.Prelude.{◌≡◌, ℕ, List, Option, length, OnOk, OnErr};
ghost use Rattle.environment.specs.Faults.{HasCause};
ghost use Rattle.disk_model.specs.Calls.{CallsEnd};
ghost use Rattle.disk_model.specs.Content.{Content, WhereTold, Changes};
ghost use Rattle.disk_model.specs.Images.{mask_after_write};
ghost use Rattle.disk_model.specs.Moments.{PutSynced};

use crate::disk::Disk;
use environment::Failed;

/// Writes a piece and syncs. After an `Err` the write counts as made for what a stop may leave.
pub fn put_synced<D: Disk>(disk: &mut D, place: u64, piece: &[u8]) -> Result<(), Failed>
    ensures ok { OnOk result
        (WhereTold (D.told disk.old) (D.told disk.new) (PutSynced place piece.now)) }
    ensures err { OnErr result (WhereTold (D.told disk.old) (D.told disk.new)
        (λ old new. Changes (mask_after_write place (length piece.now) old.mask) old new)) }
    ensures calls { CallsEnd 2 (D.fuse disk.old) (D.fuse disk.new) result }
    ensures cause { HasCause (D.faults disk.old) (D.faults disk.new) result }
{
    disk.write_at(place, piece)?;
    disk.sync()?;
    Ok(())
}
