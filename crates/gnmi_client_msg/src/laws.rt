// What is written is read as itself.
ghost use Rattle.std.specs.Prelude.{◌≡◌, ◌<◌, ◌^◌, ℕ, List, Some, length, map};
ghost use Rattle.std.specs.List.{AllByRecursion};
ghost use Rattle.base_kinds.specs.declared.path.Elem.{Elem as PathElem};
ghost use Rattle.base_kinds.specs.declared.request.Note.{Note as NoteValue};
ghost use Rattle.base_kinds.specs.declared.request.UnresolvedSet.{UnresolvedSet as SetValue};
ghost use Rattle.base_kinds.specs.Schema.{SchemaNode};
ghost use Rattle.gnmi_kinds.specs.declared.ask.Encoding.TheVariants as encodings;
ghost use Rattle.path_core.specs.PathText.{IsPathText};
ghost use Rattle.gnmi_note_msg.specs.Notifications.{note_octets};
ghost use Rattle.gnmi_set_msg.specs.Asks.{set_of};
ghost use Rattle.gnmi_set_msg.specs.Replies.{reply_of};
ghost use Rattle.gnmi_get_msg.specs.Asks.{get_of};
ghost use Rattle.gnmi_get_msg.specs.ReadBack.{AreTextNames};
ghost use Rattle.gnmi_get_msg.specs.Replies.{get_reply, modules_of, capabilities};
ghost use Rattle.gnmi_client_msg.specs.Capabilities.{capabilities_of};
ghost use Rattle.gnmi_note_msg.specs.ReadBack.{IsTextPath};
ghost use Rattle.gnmi_client_msg.specs.ReadBack.{IsWritableSet, IsWritableReply, read_ask, get_asked, told_note, told_capabilities};
ghost use Rattle.gnmi_client_msg.specs.Replies.{set_stamp_of, notes_of};
ghost use Rattle.gnmi_client_msg.specs.Requests.{set_message, get_message};

/// The octets of a SetRequest that a client writes are read by a target as just what they were written for, an enum as a text.
pub fn sets_read_back()
    ensures { (ask : SetValue) → IsWritableSet ask → set_of (set_message ask) ≡ Some (read_ask ask) }
{}

/// A path that a text spells is one that can be read back: its texts are UTF-8, and the keys of each element rise by name.
pub fn spelled_paths_are_texts()
    ensures { (text : List ℕ) (path : List PathElem) → IsPathText text path → IsTextPath path }
{}

/// The octets of a GetRequest that a client writes, fewer than 2^64, are read by a target as just that path, behind no prefix, in
/// PROTO, and as supported.
pub fn gets_read_back()
    ensures { (path : List PathElem) → IsTextPath path → length (get_message path) < 2 ^ 64
        → get_of (get_message path) ≡ Some (get_asked path) }
{}

/// Of the octets that a target answers a SetRequest with, fewer than 2^64, a client reads just the stamp, where that is below 2^63.
pub fn set_replies_are_read()
    ensures { (octets reply : List ℕ) (stamp : ℕ) → stamp < 2 ^ 63
        → reply_of octets stamp ≡ Some reply → length reply < 2 ^ 64 → set_stamp_of reply ≡ Some stamp }
{}

/// Of a GetResponse whose Notifications a target writes in PROTO a client reads just these, in their order, an enum as a text; the
/// target in a prefix is skipped. This holds where each is of fewer than 2^64 octets, its stamp below 2^63, its texts UTF-8, the keys
/// of each element rise by name, no list holds a list, and numbers fit their types.
pub fn get_replies_are_read()
    ensures { (schema : List SchemaNode) (target : List ℕ) (notes : List NoteValue)
        → AllByRecursion (IsWritableReply schema target) notes
        → notes_of (get_reply (map (note_octets schema encodings.Proto target) notes))
        ≡ Some (map told_note notes) }
{}

/// Of a CapabilityResponse that a target writes, fewer than 2^64 octets, a client reads just the modules of its schema, where their
/// names are UTF-8, its encodings and the version.
pub fn capabilities_are_read()
    ensures { (schema : List SchemaNode) → AreTextNames (modules_of schema)
        → length (capabilities schema) < 2 ^ 64
        → capabilities_of (capabilities schema) ≡ Some (told_capabilities schema) }
{}
