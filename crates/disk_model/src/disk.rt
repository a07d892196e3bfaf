ghost use Rattle.std.specs.Prelude.{◌≡◌, ◌≤◌, ℕ, List, Option, length, take, IfOk, OnOk, OnErr};
ghost use Rattle.environment.specs.Faults.{HasCause};
ghost use Rattle.disk_model.specs.Calls.{Fuse, CallEnds, FillsBuffer};
ghost use Rattle.disk_model.specs.Content.{Content, WhereTold, Tells, SeesImage};
ghost use Rattle.disk_model.specs.Content.{ReadsAt, Changes, Wrote};
ghost use Rattle.disk_model.specs.Images.{mask_after_sync, mask_after_write};

use environment::Failed;

/// Octets that outlive a stop of the machine, as far as they were synced.
pub trait Disk {
    /// What it tells of its content, if it does.
    ghost told: { Self → Option Content };

    /// How often it has failed.
    ghost faults: { Self → ℕ };

    /// What makes its calls fail.
    ghost fuse: { Self → Fuse };

    fn len(&mut self) -> Result<u64, Failed>
        ensures length { IfOk result (λ n. Tells (told self.old) (λ c. n ≡ length c.seen)) }
        ensures keeps { told self.new ≡ told self.old }
        ensures image { SeesImage (told self.old) }
        ensures call { CallEnds (fuse self.old) (fuse self.new) result }
        ensures cause { HasCause (faults self.old) (faults self.new) result };

    /// Reads octets from a place on, at least one below the end.
    fn read(&mut self, place: u64, into: &mut [u8]) -> Result<usize, Failed>
        ensures bound { IfOk result (λ n. n ≤ length into.new) }
        ensures octets { IfOk result
            (λ n. Tells (told self.old) (λ c. ReadsAt c.seen place n into.new)) }
        ensures fills { IfOk result
            (λ n. FillsBuffer (fuse self.old) (told self.old) place (length into.old) n) }
        ensures keeps { told self.new ≡ told self.old }
        ensures image { SeesImage (told self.old) }
        ensures call { CallEnds (fuse self.old) (fuse self.new) result }
        ensures cause { HasCause (faults self.old) (faults self.new) result };

    /// Writes a piece, which may begin past the end.
    /// A write that fails changes nothing that a read gives, but counts as made for what a stop may leave.
    fn write_at(&mut self, place: u64, piece: &[u8]) -> Result<(), Failed>
        ensures written { OnOk result (WhereTold (told self.old) (told self.new)
            (λ old new. Wrote place piece.now old.seen new.seen)) }
        ensures stays { OnErr result (WhereTold (told self.old) (told self.new)
            (λ old new. new.seen ≡ old.seen)) }
        ensures images { WhereTold (told self.old) (told self.new)
            (λ old new. Changes (mask_after_write place (length piece.now) old.mask) old new) }
        ensures image { SeesImage (told self.old) }
        ensures call { CallEnds (fuse self.old) (fuse self.new) result }
        ensures cause { HasCause (faults self.old) (faults self.new) result };

    /// Cuts off what is past a length. A length past the end changes nothing.
    /// A cut that fails changes nothing that a read gives, but counts as made for what a stop may leave.
    fn cut(&mut self, length: u64) -> Result<(), Failed>
        ensures cut { OnOk result (WhereTold (told self.old) (told self.new)
            (λ old new. new.seen ≡ take length old.seen)) }
        ensures stays { OnErr result (WhereTold (told self.old) (told self.new)
            (λ old new. new.seen ≡ old.seen)) }
        ensures images { WhereTold (told self.old) (told self.new)
            (λ old new. Changes (take length old.mask) old new) }
        ensures image { SeesImage (told self.old) }
        ensures call { CallEnds (fuse self.old) (fuse self.new) result }
        ensures cause { HasCause (faults self.old) (faults self.new) result };

    /// After it a stop leaves what a read gives. A sync that fails changes nothing.
    fn sync(&mut self) -> Result<(), Failed>
        ensures seen { OnOk result (WhereTold (told self.old) (told self.new)
            (λ old new. new.seen ≡ old.seen)) }
        ensures images { OnOk result (WhereTold (told self.old) (told self.new)
            (λ old new. Changes (mask_after_sync old.seen) old new)) }
        ensures keeps { OnErr result (told self.new ≡ told self.old) }
        ensures image { SeesImage (told self.old) }
        ensures call { CallEnds (fuse self.old) (fuse self.new) result }
        ensures cause { HasCause (faults self.old) (faults self.new) result };
}
