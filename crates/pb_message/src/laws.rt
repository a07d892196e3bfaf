ghost use Rattle.std.specs.Prelude.{◌≡◌, ℕ, List, true};
ghost use Rattle.pb_wire.specs.Message.{IsMessage};
ghost use Rattle.pb_wire.specs.declared.field.Field.{Field as FieldValue};
ghost use Rattle.pb_message.specs.Fields.{all_fields, is_message};

/// Octets are a message exactly where they pass the test, and its fields are those that are read.
pub fn fields_of_messages()
    ensures fields { (octets : List ℕ) (fields : List FieldValue) → IsMessage octets fields
        → all_fields octets ≡ fields }
    ensures is { (octets : List ℕ) (fields : List FieldValue) → IsMessage octets fields
        → is_message octets ≡ true }
    ensures whole { (octets : List ℕ) → is_message octets ≡ true
        → IsMessage octets (all_fields octets) }
{}
