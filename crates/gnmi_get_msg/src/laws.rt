// What is written is found in it.
ghost use Rattle.std.specs.Prelude.{◌≡◌, ◌<◌, ◌^◌, ℕ, List, Some, length, map};
ghost use Rattle.base_kinds.specs.Schema.{SchemaNode};
ghost use Rattle.gnmi_get_msg.specs.Replies.{get_reply, modules_of, encodings, protocol_version, capabilities};
ghost use Rattle.gnmi_get_msg.specs.ReadBack.{notes_in, capabilities_in, model_named, AreTextNames, AreShort};

/// A GetResponse holds just the Notifications that it is written with, in their order, each of fewer than 2^64 octets.
pub fn notes_read_back()
    ensures { (notes : List (List ℕ)) → AreShort notes → notes_in (get_reply notes) ≡ Some notes }
{}

/// A CapabilityResponse names just the modules of the schema, where their names are UTF-8 and its octets fewer than 2^64, and
/// has the three encodings and the version.
pub fn capabilities_read_back()
    ensures { (schema : List SchemaNode) → AreTextNames (modules_of schema)
        → length (capabilities schema) < 2 ^ 64 → capabilities_in (capabilities schema)
        ≡ Some (record {
          models = map model_named (modules_of schema);
          packed_encodings = encodings;
          version = protocol_version;
        }) }
{}
