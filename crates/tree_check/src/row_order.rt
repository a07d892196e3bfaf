// The order of rows that a tree keeps.
ghost use Rattle.std.specs.Prelude.{◌≡◌, ◌↔◌, IsTrue};
ghost use Rattle.base_kinds.specs.Rising.{IsRising};

use base_kinds::Row;
use base_lists::rises;

/// Whether each row's path is above the one before it, as `check` wants them.
#[tactic(auto, using(history_laws::proofs::Setting::test_says_rising))]
pub fn are_rising(rows: &[Row]) -> bool
    ensures { IsTrue result ↔ IsRising rows.now }
{
    rises(rows)
}
