ghost use Rattle.std.specs.Prelude.{◌≡◌, ◌≤◌, ℕ, [], length, take, drop, min, false, IsOk, Some};
ghost use Rattle.std.specs.Prelude.{IfOk, OnOk, OnErr};
ghost use Rattle.environment.specs.Faults.{HasCause};
ghost use Rattle.disk_model.specs.Calls.{CallEnds};
ghost use Rattle.disk_model.specs.Content.{Content, ReadsAt, Changes, Wrote};
ghost use Rattle.disk_model.specs.Images.{IsImage, mask_after_sync, mask_after_write};
ghost use Rattle.memory_disks.specs.Contents.{content_after_write, content_after_failed_write};
ghost use Rattle.memory_disks.specs.Contents.{content_after_cut, content_after_sync, synced_content};
ghost use Rattle.memory_disks.specs.Views.{DiskView, fuse_of, new_disk_of, with_starved_call};

use crate::log::Log;
use crate::octets::{copy_from, write_over};
use base_lists::{NoMemory, Tally};
use disk_model::Disk;
use environment::Failed;
use std::alloc::Global;
use std::marker::Model;

/// A disk in memory, which never stops. It fails for want of memory alone.
#[derive(Drop)]
pub struct MemDisk {
    alloc: Global,
    octets: Vec<u8>,
    log: Log,
    faults: Tally,
    starved: bool,
}

impl Model for MemDisk {
    ghost use Rattle.disk_model.specs.Images.{IsImage};
    ghost use Rattle.memory_disks.specs.inner.Logs.{mask_of, past_of};
    ghost use Rattle.memory_disks.specs.Views.{DiskView};

    ghost Value = { DiskView };

    ghost view = { λ d. record {
      content = record { seen = d.octets.items; mask = mask_of d.log; past = past_of d.log };
      faults = d.faults;
      starved = d.starved;
    } };

    ghost invariant = { λ d. IsImage (mask_of d.log) d.octets.items };
}

impl MemDisk {
    ghost use Rattle.memory_disks.specs.inner.Logs.{mask_of, past_of};

    /// An empty disk. Takes no memory.
    pub fn make(alloc: Global) -> MemDisk
        ensures { result ≡ new_disk_of [] false }
    {
        MemDisk::holding(alloc, Vec::new(alloc), false)
    }

    /// A disk with these octets, all synced.
    pub fn of(alloc: Global, octets: &[u8]) -> Result<MemDisk, NoMemory>
        ensures { IfOk result (λ disk. disk ≡ new_disk_of octets.now false) }
    {
        let octets = octets.to_vec(alloc)?;
        Ok(MemDisk::holding(alloc, octets, false))
    }

    /// A disk with these octets, all synced. Takes no memory.
    pub(crate) fn holding(alloc: Global, octets: Vec<u8>, starved: bool) -> MemDisk
        ensures { result ≡ new_disk_of octets.items starved }
    {
        MemDisk {
            alloc,
            log: Log::start(&octets),
            octets,
            faults: Tally::zero(),
            starved,
        }
    }

    /// Its allocator, its octets, its calls, and whether it has failed for want of memory.
    pub(crate) fn into_parts(self) -> (Global, Vec<u8>, Log, bool)
        ensures seen { result.1.items ≡ self.content.seen }
        ensures mask { mask_of result.2 ≡ self.content.mask }
        ensures past { past_of result.2 ≡ self.content.past }
        ensures starved { result.3 ≡ self.starved }
        ensures image { IsImage self.content.mask self.content.seen }
    {
        let MemDisk {
            alloc,
            octets,
            log,
            starved,
            ..
        } = self;
        (alloc, octets, log, starved)
    }

    /// What a read gives.
    pub fn octets(&self) -> &[u8]
        ensures { result.now ≡ self.now.content.seen }
    {
        self.octets.as_slice()
    }

    /// Whether it has failed for want of memory.
    pub fn starved(&self) -> bool
        ensures { result ≡ self.now.starved }
    {
        self.starved
    }
}

impl Disk for MemDisk {
    ghost told = { λ d. Some d.content };

    ghost faults = { λ d. d.faults };

    ghost fuse = { fuse_of };

    /// Never fails.
    fn len(&mut self) -> Result<u64, Failed>
        ensures ok { result ≡ Ok (length self.old.content.seen) }
        ensures same { self.new ≡ self.old }
        ensures image { IsImage self.old.content.mask self.old.content.seen }
        ensures call { CallEnds (fuse_of self.old) (fuse_of self.new) result }
        ensures length { IfOk result (λ n. n ≡ length self.old.content.seen) }
        ensures keeps { Some self.new.content ≡ Some self.old.content }
        ensures cause { HasCause self.old.faults self.new.faults result }
    {
        Ok(self.octets.len() as u64)
    }

    /// Never fails, and fills the buffer as far as there are octets.
    fn read(&mut self, place: u64, into: &mut [u8]) -> Result<usize, Failed>
        ensures ok { result ≡ Ok (min (length into.old)
            (length (drop place self.old.content.seen))) }
        ensures same { self.new ≡ self.old }
        ensures image { IsImage self.old.content.mask self.old.content.seen }
        ensures call { CallEnds (fuse_of self.old) (fuse_of self.new) result }
        ensures fills { IfOk result
            (λ n. n ≡ min (length into.old) (length (drop place self.old.content.seen))) }
        ensures bound { IfOk result (λ n. n ≤ length into.new) }
        ensures octets { IfOk result (λ n. ReadsAt self.old.content.seen place n into.new) }
        ensures keeps { Some self.new.content ≡ Some self.old.content }
        ensures cause { HasCause self.old.faults self.new.faults result }
    {
        Ok(copy_from(&self.octets, place, into))
    }

    /// Fails for want of memory alone, and then changes nothing that a read gives.
    fn write_at(&mut self, place: u64, piece: &[u8]) -> Result<(), Failed>
        ensures ok { OnOk result (self.new ≡ record self.old {
          content = content_after_write place piece.now self.old.content;
        }) }
        ensures err { OnErr result (self.new ≡ with_starved_call
            (content_after_failed_write place piece.now self.old.content) self.old) }
        ensures images { Changes (mask_after_write place (length piece.now) self.old.content.mask)
            self.old.content self.new.content }
        ensures image { IsImage self.old.content.mask self.old.content.seen }
        ensures call { CallEnds (fuse_of self.old) (fuse_of self.new) result }
        ensures stays { OnErr result (self.new.content.seen ≡ self.old.content.seen) }
        ensures written { OnOk result
            (Wrote place piece.now self.old.content.seen self.new.content.seen) }
        ensures cause { HasCause self.old.faults self.new.faults result }
    {
        self.log = self.log.after_write(place, piece.len());
        match write_over(&mut self.octets, place, piece) {
            Ok(()) => Ok(()),
            Err(_) => {
                self.starved = true;
                self.faults.rise();
                Err(Failed)
            }
        }
    }

    /// Never fails.
    fn cut(&mut self, length: u64) -> Result<(), Failed>
        ensures ok { IsOk result }
        ensures to { self.new ≡ record self.old
            { content = content_after_cut length self.old.content } }
        ensures images { Changes (take length self.old.content.mask)
            self.old.content self.new.content }
        ensures image { IsImage self.old.content.mask self.old.content.seen }
        ensures call { CallEnds (fuse_of self.old) (fuse_of self.new) result }
        ensures stays { OnErr result (self.new.content.seen ≡ self.old.content.seen) }
        ensures cut { OnOk result (self.new.content.seen ≡ take length self.old.content.seen) }
        ensures cause { HasCause self.old.faults self.new.faults result }
    {
        self.log = self.log.after_cut(length);
        self.octets.truncate(length as usize);
        Ok(())
    }

    /// Never fails.
    fn sync(&mut self) -> Result<(), Failed>
        ensures ok { IsOk result }
        ensures now { self.new ≡ record self.old { content = content_after_sync self.old.content } }
        ensures images { OnOk result (Changes (mask_after_sync self.old.content.seen)
            self.old.content self.new.content) }
        ensures image { IsImage self.old.content.mask self.old.content.seen }
        ensures call { CallEnds (fuse_of self.old) (fuse_of self.new) result }
        ensures seen { OnOk result (self.new.content.seen ≡ self.old.content.seen) }
        ensures keeps { OnErr result (Some self.new.content ≡ Some self.old.content) }
        ensures cause { HasCause self.old.faults self.new.faults result }
    {
        self.log = self.log.after_sync(&self.octets);
        Ok(())
    }
}
