//! A disk: octets of which what was written is sure to be there after a stop of the machine only once it was synced.
//! Start with the trait `Disk`, and in specs/ with Images (what a stop may leave), Content (what a disk tells of
//! itself and what its calls change) and Moments (what it leaves at any moment between two states).
//! `Armed` are disks that fail and stop where they are told to (specs/Arming); specs/Calls says which calls fail.
//! `read_whole`, `read_part` and `put_synced` are what users of a disk build of its calls; laws.rt has what follows.
#![tactic(auto)]

mod armed;
mod disk;
mod laws;
mod outcome;
mod reading;
mod writing;

pub use armed::Armed;
pub use disk::Disk;
pub use laws::{
    calls_add_up, each_call_fails_after_a_stop, failure_hits_its_call, image_is_of_mask,
    image_of_touched, image_of_written, no_call_changes_images, stop_hits_its_call, stretches_join,
    synced_image, unarmed_passes, weaker_facts_hold,
};
pub use outcome::Outcome;
pub use reading::{read_part, read_whole};
pub use writing::put_synced;
