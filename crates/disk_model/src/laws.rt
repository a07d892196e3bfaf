// What callers may conclude of images, of stretches of moments, and of armed calls.
ghost use Rattle.std.specs.Prelude.{◌≡◌, ◌≢◌, ◌≤◌, ◌<◌, ◌↔◌, ◌+◌, ℕ, Bool, true, IsTrue, List, [], ◌∷◌, Option};
ghost use Rattle.std.specs.Prelude.{Some, None, length, slice_get, take};
ghost use Rattle.base_kinds.specs.declared.fill.Fill.{Fill};
ghost use Rattle.disk_model.specs.Arming.{Arming, outcome_of, arming_after, arming_after_calls};
ghost use Rattle.disk_model.specs.Arming.{armed_by, unarmed};
ghost use Rattle.disk_model.specs.Calls.{Fuse, CallsPassed, CallsFailed};
ghost use Rattle.disk_model.specs.Content.{Content, Wrote};
ghost use Rattle.disk_model.specs.Images.{IsImage, mask_after_sync, mask_after_write};
ghost use Rattle.disk_model.specs.Moments.{LeavesNow, LeavesOnly};

use crate::outcome::Outcome;

/// Octets are an image where they are at least as many as the mask has places, and each octet that stays is there.
pub fn image_is_of_mask()
    ensures { (mask : List (Option ℕ)) (octets : List ℕ) → IsImage mask octets
        ↔ ((length mask ≤ length octets)
        × ((place stays : ℕ) → slice_get mask place ≡ Some (Some stays)
        → slice_get octets place ≡ Some stays)) }
{}

/// After a sync the octets themselves are an image, and each image begins with them.
pub fn synced_image()
    ensures { (seen octets : List ℕ) → IsImage (mask_after_sync seen) octets
        ↔ (take (length seen) octets ≡ seen) }
{}

/// What was an image stays one where a place was written.
pub fn image_of_touched()
    ensures { (mask : List (Option ℕ)) (octets : List ℕ) (place n : ℕ) → IsImage mask octets
        → IsImage (mask_after_write place n mask) octets }
{}

/// An image over which a piece is written is an image after the write.
pub fn image_of_written()
    ensures { (mask : List (Option ℕ)) (old piece new : List ℕ) (place : ℕ) → IsImage mask old
        → Wrote place piece old new → IsImage (mask_after_write place (length piece) mask) new }
{}

/// What all images have throughout two stretches of moments, of which one follows the other, they have
/// throughout both together.
pub fn stretches_join()
    ensures { (test : List ℕ → Bool) (old mid new : Option Content)
        → LeavesOnly (λ octets. IsTrue (test octets)) old mid
        → LeavesOnly (λ octets. IsTrue (test octets)) mid new
        → LeavesOnly (λ octets. IsTrue (test octets)) old new }
{}

/// What follows of octets from what all images have throughout a stretch they have throughout it.
pub fn weaker_facts_hold()
    ensures { (strong weak : List ℕ → Bool) (old new : Option Content)
        → ((octets : List ℕ) → IsTrue (strong octets) → IsTrue (weak octets))
        → LeavesOnly (λ octets. IsTrue (strong octets)) old new
        → LeavesOnly (λ octets. IsTrue (weak octets)) old new }
{}

/// Where no call was made, what all images have now they have throughout.
pub fn no_call_changes_images()
    ensures { (test : List ℕ → Bool) (told : Option Content)
        → LeavesNow (λ octets. IsTrue (test octets)) told
        → LeavesOnly (λ octets. IsTrue (test octets)) told told }
{}

/// Calls that passed, and calls behind them.
pub fn calls_add_up()
    ensures passed { (first second : ℕ) (old mid new : Fuse) → CallsPassed first old mid
        → CallsPassed second mid new → CallsPassed (first + second) old new }
    ensures failed { (first second : ℕ) (old mid new : Fuse) → CallsPassed first old mid
        → CallsFailed second mid new → CallsFailed (first + second) old new }
{}

/// While nothing waits each call passes.
pub fn unarmed_passes()
    ensures { (calls : ℕ) → outcome_of (arming_after_calls calls unarmed) ≡ Outcome.Passes }
{}

/// A failure fails its own call alone.
pub fn failure_hits_its_call()
    ensures hit { (passes : ℕ)
        → outcome_of (arming_after_calls passes (armed_by [] ((passes, tt) ∷ [])))
        ≡ Outcome.Fails }
    ensures others { (passes call : ℕ) → call ≢ passes
        → outcome_of (arming_after_calls call (armed_by [] ((passes, tt) ∷ [])))
        ≡ Outcome.Passes }
{}

/// After a stop each call fails, and nothing that waits counts on.
pub fn each_call_fails_after_a_stop()
    ensures fails { (calls : ℕ) (arming : Arming) → arming.stopped ≡ true
        → outcome_of (arming_after_calls calls arming) ≡ Outcome.Fails }
    ensures stays { (arming : Arming) → arming.stopped ≡ true → arming_after arming ≡ arming }
{}

/// A stop stops its own call. Each call before it passes, and each after it fails.
pub fn stop_hits_its_call()
    ensures hit { (passes : ℕ) (fill : Fill)
        → outcome_of (arming_after_calls passes (armed_by ((passes, fill) ∷ []) []))
        ≡ Outcome.Stops fill }
    ensures before { (passes call : ℕ) (fill : Fill) → call < passes
        → outcome_of (arming_after_calls call (armed_by ((passes, fill) ∷ []) []))
        ≡ Outcome.Passes }
    ensures behind { (passes call : ℕ) (fill : Fill) → passes < call
        → outcome_of (arming_after_calls call (armed_by ((passes, fill) ∷ []) []))
        ≡ Outcome.Fails }
{}
