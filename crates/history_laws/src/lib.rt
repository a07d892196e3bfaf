//! Laws of the definitions of trees, histories and steps, each as the contract of a function that does nothing.
//!
//! Start at specs/StepLaws.antt (one step), specs/LegalLaws.antt (whole histories), specs/SoundLaws.antt (their trees are valid)
//! and specs/TrialLaws.antt (trials). The definitions that they speak of stand in base_kinds.
#![tactic(auto)]

mod histories;
mod legal;
mod orders;
mod room;
mod sound;
mod steps;
mod trees;
mod trials;

pub use histories::{histories_go_on, states_go_on, trees_rise};
pub use legal::{bases_go_on, events_are_legal, legal_histories_are_sound, legal_histories_go_on};
pub use orders::paths_are_ordered;
pub use room::{room_is_kept, trials_leave_room};
pub use sound::trees_are_sound;
pub use steps::{
    accepted_asks, events_keep_histories, refused_asks, stamps_decide, steps_add_entries,
};
pub use trees::{
    deletes_are_exact, operations_act_by_path, rising_is_tested, rows_stay_rising,
    setting_is_exact, values_decide,
};
pub use trials::{trials_are_confirmed, trials_are_undone, trials_can_be_closed};
