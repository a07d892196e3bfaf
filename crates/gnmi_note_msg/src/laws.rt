// What is written is read as itself.
ghost use Rattle.std.specs.Prelude.{◌≡◌, ℕ, List, Some};
ghost use Rattle.base_kinds.specs.declared.path.Elem.{Elem as PathElem};
ghost use Rattle.base_kinds.specs.declared.request.Note.{Note as NoteValue};
ghost use Rattle.base_kinds.specs.Schema.{SchemaNode};
ghost use Rattle.gnmi_kinds.specs.declared.ask.Encoding.{Encoding as EncodingValue};
ghost use Rattle.gnmi_note_msg.specs.Notifications.{note_octets, whole_octets};
ghost use Rattle.gnmi_note_msg.specs.Reading.{note_of};
ghost use Rattle.gnmi_note_msg.specs.ReadBack.{IsWritableNote, IsWritableWhole, read_note, read_whole};

/// The octets of a Notification are read as just that one: its stamp, its prefix where it has a target, its updates with their
/// paths and values, and its deletes, in their order; not atomic. This holds where they are fewer than 2^64, the stamp is below
/// 2^64, its texts are UTF-8, the keys of each element rise by name, and, where values aren't written as JSON, no list holds a list
/// and numbers fit their types. A stamp of 2^63 and more is read as that less 2^64, JSON as its text, and an enum as a text.
pub fn notes_read_back()
    ensures rows { (schema : List SchemaNode) (encoding : EncodingValue) (target : List ℕ)
        (note : NoteValue) → IsWritableNote schema encoding target note
        → note_of (note_octets schema encoding target note)
        ≡ Some (read_note schema encoding target note) }
    ensures whole { (stamp : ℕ) (path : List PathElem) (json target : List ℕ)
        (encoding : EncodingValue) → IsWritableWhole stamp path json target encoding
        → note_of (whole_octets stamp path json target encoding)
        ≡ Some (read_whole stamp path json target) }
{}
