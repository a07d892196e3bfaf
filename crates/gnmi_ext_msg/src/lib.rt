//! The commit extension of gNMI: which extension a request has, and what a Commit of gnmi_ext.proto asks for, read and written.
//!
//! Start at `read_extension` and `read_commit`, and at what octets are read as: specs/Extensions.antt, specs/Commits.antt.
//! What is written is specs/Writing.antt. The numbers of the fields stand in one table, specs/Numbers.antt (src/numbers.rt).
#![tactic(auto)]

mod extension;
mod extensions;
mod laws;
mod numbers;
mod reading;
mod writing;

pub use extension::{Extension, read_extension};
pub use extensions::are_other;
pub use laws::commits_read_back;
pub use reading::read_commit;
pub use writing::write_commit;
