//! Lists and texts as contracts see them: a `Seq` is the list of its items, a `Text` the list of its octets, and a
//! `Remembered` a list that contracts alone know. Start with `Seq` (seq.rt) and specs/Fronts.antt, which says what a
//! call that gave up may have added. Results by steps stand in specs/Results.antt, groups of seven bits in
//! specs/SevenBits.antt, lists that rise in specs/Rising.antt.
#![tactic(auto)]

mod groups;
mod no_memory;
mod order;
mod ranked;
mod remembered;
mod seq;
mod tally;
mod text;

pub use groups::put_groups;
pub use no_memory::NoMemory;
pub use ranked::{Ranked, rises};
pub use remembered::Remembered;
pub use seq::{Copied, Same, Seq};
pub use tally::{Tally, remember_all};
pub use text::{Text, TextOfFault};

/// Octets.
pub type Bytes = Seq<u8>;

pub type Texts = Seq<Text>;
