//! Disks in memory for tests and scripts: `MemDisk`, which never stops, and `FuseDisk`, which stops and fails in the
//! calls for which it is armed (disk_model's `Armed`).
//! Start with the calls of src/memory.rt and src/fuse.rt, and in specs/ with Contents (what each call makes of a disk's
//! content), Views, Fuses (what a call makes of a disk that stops) and Octets (what writes and stops make of octets).
#![tactic(auto)]

mod fuse;
mod leaving;
mod lines;
mod log;
mod memory;
mod octets;
mod queue;
mod steps;

pub use base_kinds::Fill;
pub use fuse::FuseDisk;
pub use lines::NO_STOP;
pub use memory::MemDisk;
