// The steps of the calls of a disk that stops.
ghost use Rattle.std.specs.Prelude.{◌≡◌, ◌↔◌, ◌≤◌, length, take, drop, min, IsOk, OnOk};
ghost use Rattle.environment.specs.Faults.{HasCause};
ghost use Rattle.disk_model.specs.Arming.{outcome_of};
ghost use Rattle.disk_model.specs.Calls.{CallEnds};
ghost use Rattle.disk_model.specs.Images.{IsImage};
ghost use Rattle.memory_disks.specs.Fuses.{FuseView, fuse_of, with_call_counted, after_failure};
ghost use Rattle.memory_disks.specs.Fuses.{after_quiet_stop, after_look, after_sync, StopsInWrite};
ghost use Rattle.memory_disks.specs.Fuses.{after_failed_write, after_failed_cut, WriteGives, CutGives};
ghost use Rattle.memory_disks.specs.inner.Ready.{IsReady};

use crate::fuse::FuseDisk;
use crate::leaving::{keep_base, leave, leave_written, write_noted};
use crate::octets::copy_from;
use base_kinds::Fill;
use disk_model::Outcome;
use environment::Failed;
use std::snapshot::Snapshot;

impl FuseDisk {
    /// Lets the counts go on by this call, and answers what it does.
    pub(crate) fn outcome(&mut self) -> Outcome
        ensures outcome { result ≡ outcome_of self.old.arming }
        ensures called { self.new ≡ with_call_counted self.old }
        ensures ready { IsReady result self.new }
        ensures image { IsImage self.old.content.mask self.old.content.seen }
    {
        self.arming.call()
    }

    pub(crate) fn fail(&mut self) -> Failed
        ensures { self.new ≡ after_failure self.old.content self.old }
    {
        self.faults.rise();
        Failed
    }

    /// A write fails. It counts as made for what a stop may leave.
    pub(crate) fn fail_write(&mut self, place: u64, piece: &[u8]) -> Failed
        ensures { self.new ≡ after_failed_write place piece.now self.old }
    {
        self.log = self.log.after_write(place, piece.len());
        self.fail()
    }

    /// A cut fails. It counts as made for what a stop may leave.
    pub(crate) fn fail_cut(&mut self, length: u64) -> Failed
        ensures { self.new ≡ after_failed_cut length self.old }
    {
        self.log = self.log.after_cut(length);
        self.fail()
    }

    /// Stops in a call that writes nothing.
    pub(crate) fn stop(&mut self, fill: Fill) -> Failed
        requires { IsReady (Outcome.Stops fill) self.old }
        ensures { self.new ≡ after_quiet_stop fill (after_failure self.old.content self.old) }
    {
        self.before = Some(Snapshot::of(&self.octets));
        leave(&mut self.octets, self.safe.take(), &self.written, fill);
        self.faults.rise();
        Failed
    }

    /// Stops in a cut, which isn't made.
    pub(crate) fn stop_cut(&mut self, fill: Fill, length: u64) -> Failed
        requires { IsReady (Outcome.Stops fill) self.old }
        ensures { self.new ≡ after_quiet_stop fill (after_failed_cut length self.old) }
    {
        self.log = self.log.after_cut(length);
        self.stop(fill)
    }

    /// Stops in a write, whose piece counts as written.
    pub(crate) fn stop_write(&mut self, fill: Fill, place: u64, piece: &[u8]) -> Failed
        requires { IsReady (Outcome.Stops fill) self.old }
        ensures { StopsInWrite fill place piece.now self.old self.new }
    {
        self.before = Some(Snapshot::of(&self.octets));
        self.log = self.log.after_write(place, piece.len());
        self.faults.rise();
        let made = leave_written(
            &mut self.octets,
            self.safe.take(),
            &self.written,
            fill,
            place,
            piece,
        );
        if !made {
            self.starved = true;
        }
        Failed
    }

    /// Passes, fails or stops, in a call that writes nothing.
    pub(crate) fn pass(&mut self) -> Result<(), Failed>
        ensures passes { IsOk result ↔ (outcome_of self.old.arming ≡ Outcome.Passes) }
        ensures looked { self.new
            ≡ after_look (outcome_of self.old.arming) (with_call_counted self.old) }
        ensures called { OnOk result (self.new ≡ with_call_counted self.old) }
        ensures ready { OnOk result (IsReady Outcome.Passes self.new) }
        ensures image { IsImage self.old.content.mask self.old.content.seen }
        ensures call { CallEnds (fuse_of self.old) (fuse_of self.new) result }
        ensures cause { HasCause self.old.faults self.new.faults result }
    {
        match self.outcome() {
            Outcome::Passes => Ok(()),
            Outcome::Fails => Err(self.fail()),
            Outcome::Stops(fill) => Err(self.stop(fill)),
        }
    }

    /// Writes, fails or stops.
    pub(crate) fn write_as(&mut self, way: Outcome, place: u64, piece: &[u8]) -> Result<(), Failed>
        requires { IsReady way self.old }
        ensures { WriteGives way place piece.now result self.old self.new }
    {
        match way {
            Outcome::Passes => self.write_on(place, piece),
            Outcome::Fails => Err(self.fail_write(place, piece)),
            Outcome::Stops(fill) => Err(self.stop_write(fill, place, piece)),
        }
    }

    /// Cuts, fails or stops.
    pub(crate) fn cut_as(&mut self, way: Outcome, length: u64) -> Result<(), Failed>
        requires { IsReady way self.old }
        ensures { CutGives way length result self.old self.new }
    {
        match way {
            Outcome::Passes => self.cut_on(length),
            Outcome::Fails => Err(self.fail_cut(length)),
            Outcome::Stops(fill) => Err(self.stop_cut(fill, length)),
        }
    }

    pub(crate) fn write_on(&mut self, place: u64, piece: &[u8]) -> Result<(), Failed>
        requires { IsReady Outcome.Passes self.old }
        ensures { WriteGives Outcome.Passes place piece.now result self.old self.new }
    {
        self.log = self.log.after_write(place, piece.len());
        match write_noted(
            self.alloc,
            &mut self.octets,
            &mut self.safe,
            &mut self.written,
            place,
            piece,
        ) {
            Ok(()) => Ok(()),
            Err(_) => {
                self.starved = true;
                Err(self.fail())
            }
        }
    }

    pub(crate) fn cut_on(&mut self, length: u64) -> Result<(), Failed>
        requires { IsReady Outcome.Passes self.old }
        ensures { CutGives Outcome.Passes length result self.old self.new }
    {
        self.log = self.log.after_cut(length);
        match keep_base(self.alloc, &self.octets, &mut self.safe) {
            Ok(()) => {
                self.octets.truncate(length as usize);
                Ok(())
            }
            Err(_) => {
                self.starved = true;
                Err(self.fail())
            }
        }
    }

    pub(crate) fn sync_on(&mut self)
        requires { IsReady Outcome.Passes self.old }
        ensures { self.new ≡ after_sync Outcome.Passes self.old }
    {
        self.log = self.log.after_sync(&self.octets);
        self.base = Snapshot::of(&self.octets);
        self.safe = None;
        self.written.clear();
    }

    pub(crate) fn length(&self) -> u64
        requires { IsReady Outcome.Passes self.now }
        ensures { result ≡ length self.now.content.seen }
    {
        self.octets.len() as u64
    }

    pub(crate) fn read_on(&self, place: u64, into: &mut [u8]) -> usize
        requires { IsReady Outcome.Passes self.now }
        ensures bound { result ≤ length into.new }
        ensures octets { take result into.new ≡ take result (drop place self.now.content.seen) }
        ensures count { result ≡ min (length into.old) (length (drop place self.now.content.seen)) }
    {
        copy_from(&self.octets, place, into)
    }
}
