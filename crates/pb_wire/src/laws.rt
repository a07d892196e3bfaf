ghost use Rattle.std.specs.Prelude.{◌≡◌, ℕ, ◌^◌, ◌<◌, ◌≤◌, [], ◌∷◌, ◌++◌, List, length, filter, true};
ghost use Rattle.pb_wire.specs.Varint.{IsVarint, shortest};
ghost use Rattle.pb_wire.specs.Message.{IsMessage, FieldsFrom, IsNextField, AreWithin};
ghost use Rattle.pb_wire.specs.Writing.{shifted, octets_field, octets_body};
ghost use Rattle.pb_wire.specs.Values.{varints, occurrences, has_member, is_member, last_entries, value_of_key};
ghost use Rattle.pb_wire.specs.declared.field.Body.TheVariants.{Varint};
ghost use Rattle.pb_wire.specs.declared.field.Field.{Field as FieldValue};

/// A message has one list of fields at most.
pub fn one_list()
    ensures { (octets : List ℕ) (fields others : List FieldValue) → IsMessage octets fields
        → IsMessage octets others → fields ≡ others }
{}

/// No spelling of a varint begins another, so what follows it is the same.
pub fn one_number()
    ensures { (a b x y : List ℕ) (m n : ℕ) → IsVarint a m → IsVarint b n → a ++ x ≡ b ++ y
        → (m ≡ n) × (x ≡ y) }
{}

/// The shortest spelling is one, and no other has fewer octets.
pub fn shortest_spelling()
    ensures spells { (n : ℕ) → n < 2 ^ 64 → IsVarint (shortest n) n }
    ensures fewest { (n : ℕ) (octets : List ℕ) → IsVarint octets n
        → length (shortest n) ≤ length octets }
{}

/// The fields of a message are those that are read one after the other, from place 0 on.
pub fn read_in_turn()
    ensures whole { (octets : List ℕ) (fields : List FieldValue) → FieldsFrom octets 0 fields
        → IsMessage octets fields }
    ensures of_whole { (octets : List ℕ) (fields : List FieldValue) → IsMessage octets fields
        → FieldsFrom octets 0 fields }
    ensures more { (octets : List ℕ) (place : ℕ) (field : FieldValue) (next : ℕ)
        (fields : List FieldValue) → IsNextField octets place field next
        → FieldsFrom octets next fields → FieldsFrom octets place (field ∷ fields) }
    ensures first { (octets : List ℕ) (place : ℕ) (field : FieldValue) (next : ℕ)
        (fields : List FieldValue) → IsNextField octets place field next
        → FieldsFrom octets place fields
        → (others : List FieldValue) × (fields ≡ field ∷ others) × FieldsFrom octets next others }
    // Where octets are left and no field stands first, they are no fields.
    ensures bad { (octets : List ℕ) (place : ℕ) (fields : List FieldValue) → place < length octets
        → ((field : FieldValue) (next : ℕ) → IsNextField octets place field next → ⊥)
        → FieldsFrom octets place fields → ⊥ }
    ensures at_the_end { (octets : List ℕ) → FieldsFrom octets (length octets) [] }
    ensures no_more { (octets : List ℕ) (fields : List FieldValue)
        → FieldsFrom octets (length octets) fields → fields ≡ [] }
{}

/// What a oneof holds under a member's number is the same without the fields that are none of its members.
pub fn members_alone()
    ensures varints { (members : List (ℕ × ℕ)) (number : ℕ) (fields : List FieldValue)
        → has_member members number 0 ≡ true
        → varints number (filter (is_member members) fields) ≡ varints number fields }
    ensures octets { (members : List (ℕ × ℕ)) (message : List ℕ) (number : ℕ)
        (fields : List FieldValue)
        → has_member members number 2 ≡ true
        → occurrences message number (filter (is_member members) fields)
        ≡ occurrences message number fields }
{}

/// Of a map, what a key has is what it has among the last entries ("Maps": the last entry of a key counts).
pub fn last_entry_of_a_key<V>()
    ensures { (key : List ℕ) (entries : List (List ℕ × V))
        → value_of_key key (last_entries entries) ≡ value_of_key key entries }
{}

/// Octets that are put after others add their fields, with their places behind the others.
pub fn appended()
    ensures { (a b : List ℕ) (xs ys : List FieldValue) → IsMessage a xs → IsMessage b ys
        → IsMessage (a ++ b) (xs ++ shifted (length a) ys) }
{}

/// The places of a message's fields are in it.
pub fn within()
    ensures { (octets : List ℕ) (fields : List FieldValue) → IsMessage octets fields
        → AreWithin octets fields }
{}

/// Octets that are put after others hold what the others hold, and then their own.
pub fn appended_values()
    ensures varints { (number by : ℕ) (xs ys : List FieldValue) →
        varints number (xs ++ shifted by ys) ≡ varints number xs ++ varints number ys }
    ensures octets { (a b : List ℕ) (number : ℕ) (xs ys : List FieldValue) → AreWithin a xs
        → occurrences (a ++ b) number (xs ++ shifted (length a) ys)
        ≡ occurrences a number xs ++ occurrences b number ys }
{}

/// A written field holds what it was written with.
pub fn written_values()
    ensures varint { (number value : ℕ)
        → varints number (record { number = number; body = Varint value } ∷ []) ≡ value ∷ [] }
    ensures octets { (number : ℕ) (octets : List ℕ)
        → occurrences (octets_field number octets) number
        (record { number = number; body = octets_body octets } ∷ []) ≡ octets ∷ [] }
{}
