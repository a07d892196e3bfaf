// Writing octets behind others, where there is room for them.
ghost use Rattle.std.specs.Prelude.{◌≡◌, ◌+◌, ◌≤◌, ℕ, List, ◌∷◌, [], ◌++◌, length, sum_by, vec_len, vec_capacity};
ghost use Rattle.std.specs.List.{flat_map, AllByRecursion};
ghost use Rattle.std.specs.Int.{w16, w32, w64, to_be_bytes, cast_unsigned};
ghost use Rattle.base_kinds.specs.Records.{text_octets};
ghost use Rattle.journal_record.specs.Spelling.{text_spelling};
ghost use Rattle.journal_record.specs.Representable.{IsRepresentableText, AreOctets};

use base_kinds::Text;

/// What can be written, in one spelling.
pub(crate) trait Spelled {
    ghost spelling: { Self → List ℕ };

    ghost octets: { Self → ℕ };

    ghost is_representable: { Self → Type 0 };

    fn put(&self, out: &mut Vec<u8>)
        requires { vec_len out.old + octets self.now ≤ vec_capacity out.old }
        ensures items { out.new.items ≡ out.old.items ++ spelling self.now }
        ensures len { vec_len out.new ≡ vec_len out.old + octets self.now }
        ensures capacity { vec_capacity out.old ≤ vec_capacity out.new }
        ensures kept { is_representable self.now };
}

/// Writes each of the parts.
pub(crate) fn put_all<T: Spelled>(parts: &[T], out: &mut Vec<u8>)
    requires { vec_len out.old + sum_by T.octets parts.now ≤ vec_capacity out.old }
    ensures items { out.new.items ≡ out.old.items ++ flat_map T.spelling parts.now }
    ensures len { vec_len out.new ≡ vec_len out.old + sum_by T.octets parts.now }
    ensures capacity { vec_capacity out.old ≤ vec_capacity out.new }
    ensures kept { AllByRecursion T.is_representable parts.now }
{
    for part in parts {
        part.put(out);
    }
}

pub(crate) fn put_octets(octets: &[u8], out: &mut Vec<u8>)
    requires { vec_len out.old + length octets.now ≤ vec_capacity out.old }
    ensures items { out.new.items ≡ out.old.items ++ octets.now }
    ensures len { vec_len out.new ≡ vec_len out.old + length octets.now }
    ensures capacity { vec_capacity out.old ≤ vec_capacity out.new }
    ensures kept { AreOctets octets.now }
{
    out.extend_from_slice(octets).unwrap();
}

/// A count in two octets.
pub(crate) fn put_two(count: usize, out: &mut Vec<u8>)
    requires { vec_len out.old + 2 ≤ vec_capacity out.old }
    ensures items { out.new.items ≡ out.old.items ++ to_be_bytes w16 count }
    ensures len { vec_len out.new ≡ vec_len out.old + 2 }
    ensures capacity { vec_capacity out.old ≤ vec_capacity out.new }
{
    let octets = [(count / 256 % 256) as u8, (count % 256) as u8];
    put_octets(&octets, out);
}

/// A count or a length in four octets.
pub(crate) fn put_four(count: usize, out: &mut Vec<u8>)
    requires { vec_len out.old + 4 ≤ vec_capacity out.old }
    ensures items { out.new.items ≡ out.old.items ++ to_be_bytes w32 count }
    ensures len { vec_len out.new ≡ vec_len out.old + 4 }
    ensures capacity { vec_capacity out.old ≤ vec_capacity out.new }
{
    let octets = [
        (count / 16_777_216 % 256) as u8,
        (count / 65_536 % 256) as u8,
        (count / 256 % 256) as u8,
        (count % 256) as u8,
    ];
    put_octets(&octets, out);
}

pub(crate) fn put_eight(number: u64, out: &mut Vec<u8>)
    requires { vec_len out.old + 8 ≤ vec_capacity out.old }
    ensures items { out.new.items ≡ out.old.items ++ to_be_bytes w64 number }
    ensures len { vec_len out.new ≡ vec_len out.old + 8 }
    ensures capacity { vec_capacity out.old ≤ vec_capacity out.new }
{
    put_octets(&number.to_be_bytes(), out);
}

/// In two's complement.
pub(crate) fn put_signed(number: i64, out: &mut Vec<u8>)
    requires { vec_len out.old + 8 ≤ vec_capacity out.old }
    ensures items { out.new.items ≡ out.old.items ++ to_be_bytes w64 (cast_unsigned w64 number) }
    ensures len { vec_len out.new ≡ vec_len out.old + 8 }
    ensures capacity { vec_capacity out.old ≤ vec_capacity out.new }
{
    put_octets(&number.to_be_bytes(), out);
}

/// A length, and so many octets.
#[tactic(auto, unfolding(crate::specs::Spelling::text_spelling))]
pub(crate) fn put_counted(octets: &[u8], out: &mut Vec<u8>)
    requires { vec_len out.old + text_octets octets.now ≤ vec_capacity out.old }
    ensures items { out.new.items ≡ out.old.items ++ text_spelling octets.now }
    ensures len { vec_len out.new ≡ vec_len out.old + text_octets octets.now }
    ensures capacity { vec_capacity out.old ≤ vec_capacity out.new }
    ensures kept { AreOctets octets.now }
{
    put_four(octets.len(), out);
    put_octets(octets, out);
}

pub(crate) fn put_text(text: &Text, out: &mut Vec<u8>)
    requires { vec_len out.old + text_octets text.now ≤ vec_capacity out.old }
    ensures items { out.new.items ≡ out.old.items ++ text_spelling text.now }
    ensures len { vec_len out.new ≡ vec_len out.old + text_octets text.now }
    ensures capacity { vec_capacity out.old ≤ vec_capacity out.new }
    ensures kept { IsRepresentableText text.now }
{
    put_counted(text.octets(), out);
}
