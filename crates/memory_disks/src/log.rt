ghost use Rattle.std.specs.Prelude.{◌≡◌, ◌∷◌, [], take};
ghost use Rattle.disk_model.specs.Images.{mask_after_sync, mask_after_write};
ghost use Rattle.memory_disks.specs.inner.Logs.{mask_of, past_of};

use std::snapshot::Snapshot;

/// The calls that a disk has had. Only the latest is there at run time, and none takes memory.
#[derive(Drop)]
pub enum Log {
    Made(Snapshot<Vec<u8>>),
    Wrote(Snapshot<Log>, u64, usize),
    Cut(Snapshot<Log>, u64),
    Synced(Snapshot<Log>, Snapshot<Vec<u8>>),
}

impl Log {
    pub(crate) fn start(octets: &Vec<u8>) -> Log
        ensures mask { mask_of result ≡ mask_after_sync octets.now.items }
        ensures past { past_of result ≡ [] }
    {
        Log::Made(Snapshot::of(octets))
    }

    pub(crate) fn after_write(&self, place: u64, count: usize) -> Log
        ensures mask { mask_of result ≡ mask_after_write place count (mask_of self.now) }
        ensures past { past_of result ≡ mask_of self.now ∷ past_of self.now }
    {
        Log::Wrote(Snapshot::of(self), place, count)
    }

    pub(crate) fn after_cut(&self, length: u64) -> Log
        ensures mask { mask_of result ≡ take length (mask_of self.now) }
        ensures past { past_of result ≡ mask_of self.now ∷ past_of self.now }
    {
        Log::Cut(Snapshot::of(self), length)
    }

    pub(crate) fn after_sync(&self, octets: &Vec<u8>) -> Log
        ensures mask { mask_of result ≡ mask_after_sync octets.now.items }
        ensures past { past_of result ≡ mask_of self.now ∷ past_of self.now }
    {
        Log::Synced(Snapshot::of(self), Snapshot::of(octets))
    }
}
