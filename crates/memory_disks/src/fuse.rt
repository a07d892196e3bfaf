ghost use Rattle.std.specs.Prelude.{◌≡◌, ◌↔◌, ◌≤◌, ◌∷◌, ℕ, [], length, take, drop, min, true};
ghost use Rattle.std.specs.Prelude.{IsOk, Some, None, IfOk, OnOk, OnErr, refl};
ghost use Rattle.environment.specs.Faults.{HasCause};
ghost use Rattle.disk_model.specs.Arming.{outcome_of, restarted, with_failure, with_stop};
ghost use Rattle.disk_model.specs.Calls.{CallEnds, armed_with, starved};
ghost use Rattle.disk_model.specs.Content.{Content, ReadsAt, Changes, Wrote};
ghost use Rattle.disk_model.specs.Images.{IsImage, mask_after_sync, mask_after_write};
ghost use Rattle.memory_disks.specs.Fuses.{FuseView, fuse_of, first_arming, with_call_counted};
ghost use Rattle.memory_disks.specs.Fuses.{after_look, after_sync, after_want_of_memory};
ghost use Rattle.memory_disks.specs.Fuses.{WriteGives, CutGives, image_left, new_disk_of};
ghost use Rattle.memory_disks.specs.Views.{new_disk_of as disk_of};

use crate::lines::Lines;
use crate::log::Log;
use crate::memory::MemDisk;
use base_kinds::Fill;
use base_lists::{NoMemory, Tally};
use disk_model::{Armed, Disk, Outcome};
use environment::Failed;
use std::alloc::Global;
use std::marker::Model;
use std::snapshot::Snapshot;

/// A disk in memory that stops and fails in the calls for which it is armed, and else fails for want of memory
/// alone. After a stop each call fails.
#[derive(Drop)]
pub struct FuseDisk {
    pub(crate) alloc: Global,
    /// What a read gives, and after a stop what it left.
    pub(crate) octets: Vec<u8>,
    pub(crate) log: Log,
    /// The octets of the last sync, which are not there at run time.
    pub(crate) base: Snapshot<Vec<u8>>,
    /// A copy of them, once something has changed.
    pub(crate) safe: Option<Vec<u8>>,
    /// What was written since the last sync.
    pub(crate) written: Vec<(u64, usize)>,
    pub(crate) arming: Lines,
    /// After a stop what a read gave before it, which is not there at run time.
    pub(crate) before: Option<Snapshot<Vec<u8>>>,
    pub(crate) faults: Tally,
    pub(crate) starved: bool,
}

impl Model for FuseDisk {
    ghost use Rattle.std.specs.Prelude.{option_map};
    ghost use Rattle.memory_disks.specs.inner.Kept.{IsFused, seen_of, left_of};
    ghost use Rattle.memory_disks.specs.inner.Logs.{mask_of, past_of};
    ghost use Rattle.memory_disks.specs.Fuses.{FuseView};

    ghost Value = { FuseView };

    ghost view = { λ d. record {
      content = record {
        seen = seen_of (option_map (λ s. s.value.items) d.before) d.octets.items;
        mask = mask_of d.log;
        past = past_of d.log;
      };
      faults = d.faults;
      starved = d.starved;
      arming = d.arming;
      base = d.base.value.items;
      written = d.written.items;
      left = left_of (option_map (λ s. s.value.items) d.before) d.octets.items;
    } };

    ghost invariant = { λ d. IsFused d.arming.stopped (option_map (λ s. s.value.items) d.before)
        (option_map (λ s. s.items) d.safe) d.base.value.items d.octets.items d.written.items
        (mask_of d.log) };
}

impl FuseDisk {
    /// A disk that passes this many calls and stops in the next; with 18446744073709551615 (`NO_STOP`) it is made
    /// without a stop, so that the first `stop_after` counts from the next call. What the inner disk holds counts as
    /// synced for what a stop fills in. Takes no memory.
    pub fn make(inner: MemDisk, passes: u64, fill: Fill) -> FuseDisk
        ensures { result
            ≡ record (new_disk_of inner.content.seen inner.starved (first_arming passes fill))
            { content = inner.content } }
    {
        let (alloc, octets, log, starved) = inner.into_parts();
        FuseDisk {
            alloc,
            log,
            base: Snapshot::of(&octets),
            octets,
            safe: None,
            written: Vec::new(alloc),
            arming: Lines::first(alloc, passes, fill),
            before: None,
            faults: Tally::zero(),
            starved,
        }
    }

    /// What the stop left, and before a stop the disk as it reads. Takes no memory.
    pub fn image(self) -> MemDisk
        ensures octets { result ≡ disk_of (image_left self) self.starved }
        ensures image { IsImage self.content.mask result.content.seen }
    {
        let (alloc, octets, _, starved) = self.into_left();
        MemDisk::holding(alloc, octets, starved)
    }

    /// A new disk of that image, for which the stops and failures that still wait go on. Takes no memory.
    pub fn again(self) -> FuseDisk
        ensures octets { result
            ≡ new_disk_of (image_left self) self.starved (restarted self.arming) }
        ensures image { IsImage self.content.mask result.content.seen }
    {
        let (alloc, octets, arming, starved) = self.into_left();
        FuseDisk {
            alloc,
            log: Log::start(&octets),
            base: Snapshot::of(&octets),
            octets,
            safe: None,
            written: Vec::new(alloc),
            arming: arming.restarted(),
            before: None,
            faults: Tally::zero(),
            starved,
        }
    }

    /// Its allocator, the image that it leaves, the lines that wait, and whether memory was wanting.
    fn into_left(self) -> (Global, Vec<u8>, Lines, bool)
        ensures octets { result.1.items ≡ image_left self }
        ensures arming { result.2 ≡ self.arming }
        ensures starved { result.3 ≡ self.starved }
        ensures image { IsImage self.content.mask result.1.items }
    {
        let FuseDisk {
            alloc,
            octets,
            arming,
            starved,
            ..
        } = self;
        (alloc, octets, arming, starved)
    }
}

impl Disk for FuseDisk {
    ghost told = { λ d. Some d.content };

    ghost faults = { λ d. d.faults };

    ghost fuse = { fuse_of };

    /// Fails exactly where it is armed.
    fn len(&mut self) -> Result<u64, Failed>
        ensures passes { IsOk result ↔ (outcome_of self.old.arming ≡ Outcome.Passes) }
        ensures looked { self.new
            ≡ after_look (outcome_of self.old.arming) (with_call_counted self.old) }
        ensures length { IfOk result (λ n. n ≡ length self.old.content.seen) }
        ensures keeps { Some self.new.content ≡ Some self.old.content }
        ensures image { IsImage self.old.content.mask self.old.content.seen }
        ensures call { CallEnds (fuse_of self.old) (fuse_of self.new) result }
        ensures cause { HasCause self.old.faults self.new.faults result }
    {
        self.pass()?;
        Ok(self.length())
    }

    /// Fails exactly where it is armed, and else fills the buffer as far as there are octets.
    fn read(&mut self, place: u64, into: &mut [u8]) -> Result<usize, Failed>
        ensures passes { IsOk result ↔ (outcome_of self.old.arming ≡ Outcome.Passes) }
        ensures looked { self.new
            ≡ after_look (outcome_of self.old.arming) (with_call_counted self.old) }
        ensures bound { IfOk result (λ n. n ≤ length into.new) }
        ensures octets { IfOk result (λ n. ReadsAt self.old.content.seen place n into.new) }
        ensures fills { IfOk result
            (λ n. n ≡ min (length into.old) (length (drop place self.old.content.seen))) }
        ensures keeps { Some self.new.content ≡ Some self.old.content }
        ensures image { IsImage self.old.content.mask self.old.content.seen }
        ensures call { CallEnds (fuse_of self.old) (fuse_of self.new) result }
        ensures cause { HasCause self.old.faults self.new.faults result }
    {
        self.pass()?;
        Ok(self.read_on(place, into))
    }

    /// Fails where it is armed, and else for want of memory alone.
    fn write_at(&mut self, place: u64, piece: &[u8]) -> Result<(), Failed>
        ensures gives { WriteGives (outcome_of self.old.arming) place piece.now result
            (with_call_counted self.old) self.new }
        ensures written { OnOk result
            (Wrote place piece.now self.old.content.seen self.new.content.seen) }
        ensures stays { OnErr result (self.new.content.seen ≡ self.old.content.seen) }
        ensures images { Changes (mask_after_write place (length piece.now) self.old.content.mask)
            self.old.content self.new.content }
        ensures image { IsImage self.old.content.mask self.old.content.seen }
        ensures call { CallEnds (fuse_of self.old) (fuse_of self.new) result }
        ensures cause { HasCause self.old.faults self.new.faults result }
    {
        let outcome = self.outcome();
        self.write_as(outcome, place, piece)
    }

    /// Fails where it is armed, and else for want of memory alone.
    fn cut(&mut self, length: u64) -> Result<(), Failed>
        ensures gives { CutGives (outcome_of self.old.arming) length result
            (with_call_counted self.old) self.new }
        ensures cut { OnOk result (self.new.content.seen ≡ take length self.old.content.seen) }
        ensures stays { OnErr result (self.new.content.seen ≡ self.old.content.seen) }
        ensures images { Changes (take length self.old.content.mask)
            self.old.content self.new.content }
        ensures image { IsImage self.old.content.mask self.old.content.seen }
        ensures call { CallEnds (fuse_of self.old) (fuse_of self.new) result }
        ensures cause { HasCause self.old.faults self.new.faults result }
    {
        let outcome = self.outcome();
        self.cut_as(outcome, length)
    }

    /// Fails exactly where it is armed.
    fn sync(&mut self) -> Result<(), Failed>
        ensures passes { IsOk result ↔ (outcome_of self.old.arming ≡ Outcome.Passes) }
        ensures synced { self.new
            ≡ after_sync (outcome_of self.old.arming) (with_call_counted self.old) }
        ensures seen { OnOk result (self.new.content.seen ≡ self.old.content.seen) }
        ensures images { OnOk result (Changes (mask_after_sync self.old.content.seen)
            self.old.content self.new.content) }
        ensures keeps { OnErr result (Some self.new.content ≡ Some self.old.content) }
        ensures image { IsImage self.old.content.mask self.old.content.seen }
        ensures call { CallEnds (fuse_of self.old) (fuse_of self.new) result }
        ensures cause { HasCause self.old.faults self.new.faults result }
    {
        self.pass()?;
        self.sync_on();
        Ok(())
    }
}

impl Armed for FuseDisk {
    fn starved(&self) -> bool
        ensures { result ≡ self.now.starved }
    {
        self.starved
    }

    fn stopped(&self) -> bool
        ensures { result ≡ self.now.arming.stopped }
    {
        self.arming.stopped()
    }

    fn fail_after(&mut self, passes: u64) -> Result<(), NoMemory>
        ensures armed { OnOk result
            (self.new ≡ record self.old { arming = with_failure passes self.old.arming }) }
        ensures not_armed { OnErr result (self.new ≡ after_want_of_memory self.old) }
        ensures ok { OnOk result
            (fuse_of self.new ≡ armed_with (with_failure passes) (fuse_of self.old)) }
        ensures err { OnErr result (fuse_of self.new ≡ starved (fuse_of self.old)) }
        ensures told { Some self.new.content ≡ Some self.old.content }
        ensures faults { self.new.faults ≡ self.old.faults }
    {
        match self.arming.fail_after(passes) {
            Ok(()) => Ok(()),
            Err(want) => {
                self.starved = true;
                Err(want)
            }
        }
    }

    fn stop_after(&mut self, passes: u64, fill: Fill) -> Result<(), NoMemory>
        ensures armed { OnOk result
            (self.new ≡ record self.old { arming = with_stop passes fill self.old.arming }) }
        ensures not_armed { OnErr result (self.new ≡ after_want_of_memory self.old) }
        ensures ok { OnOk result
            (fuse_of self.new ≡ armed_with (with_stop passes fill) (fuse_of self.old)) }
        ensures err { OnErr result (fuse_of self.new ≡ starved (fuse_of self.old)) }
        ensures told { Some self.new.content ≡ Some self.old.content }
        ensures faults { self.new.faults ≡ self.old.faults }
    {
        match self.arming.stop_after(passes, fill) {
            Ok(()) => Ok(()),
            Err(want) => {
                self.starved = true;
                Err(want)
            }
        }
    }

    ghost is_armed = { λ d. refl };
}
