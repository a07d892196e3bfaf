// What is written is found in it.
ghost use Rattle.std.specs.Prelude.{◌≡◌, ◌<◌, ◌^◌, ℕ, List, Some, None, true, false, length};
ghost use Rattle.gnmi_sub_msg.specs.Replies.{note_reply, sync_reply, note_in, says_sync};

/// A SubscribeResponse with a Notification of fewer than 2^64 octets has just that one and says no sync, and one that says a sync
/// has none.
pub fn replies_read_back()
    ensures note { (note : List ℕ) → length note < 2 ^ 64 → note_in (note_reply note) ≡ Some note }
    ensures no_sync { (note : List ℕ) → length note < 2 ^ 64
        → says_sync (note_reply note) ≡ false }
    ensures sync { says_sync sync_reply ≡ true }
    ensures no_note { note_in sync_reply ≡ None }
{}
