// The header of a journal.
ghost use Rattle.std.specs.Prelude.{◌≡◌, ◌++◌, ℕ, List, MatchOption, OnOk, OnErr, option_map};
ghost use Rattle.std.specs.Int.{w32};
ghost use Rattle.base_kinds.specs.Limits.{AreInRange};
ghost use Rattle.journal_format.specs.Journal.{header, HasNoHeader};
ghost use Rattle.journal_record.specs.inner.Reading.{number_at};
ghost use Rattle.journal_format.specs.inner.Progress.{limits_at, limits_octets, HasNoLimits};

use base_kinds::{Bytes, Limits, NoMemory};

const MARK: &[u8; 8] = b"GNMIJRN1";

fn four_in(octets: &[u8]) -> Option<(u32, &[u8])>
    ensures { option_map (λ x. (x.0, x.1.now)) result ≡ number_at w32 octets.now }
{
    if octets.len() < 4 {
        return None;
    }
    let (front, rest) = octets.split_at(4);
    let number = u32::from_be_bytes([front[0], front[1], front[2], front[3]]);
    Some((number, rest))
}

/// What follows the front, where the octets begin with it.
fn after<'a>(octets: &'a [u8], front: &[u8]) -> Option<&'a [u8]>
    ensures { MatchOption result ((rest : List ℕ) → octets.now ≡ front.now ++ rest → ⊥)
        (λ rest. octets.now ≡ front.now ++ rest.now) }
{
    octets.strip_prefix(front)
}

/// The two limits behind the mark.
#[tactic(auto, unfolding(crate::specs::inner::Progress::limits_at))]
fn limits_at(octets: &[u8]) -> Option<(Limits, &[u8])>
    ensures { option_map (λ x. (x.0, x.1.now)) result ≡ limits_at octets.now }
{
    let (entries, rest) = four_in(octets)?;
    let (octets, rest) = four_in(rest)?;
    Some((Limits { entries, octets }, rest))
}

/// The same, where they are in range.
fn legal_limits_in(octets: &[u8]) -> Option<(Limits, &[u8])>
    ensures { MatchOption result (HasNoLimits octets.now)
        (λ x. AreInRange x.0 × (octets.now ≡ limits_octets x.0 ++ x.1.now)) }
{
    let (limits, rest) = limits_at(octets)?;
    if !limits.in_range() {
        return None;
    }
    Some((limits, rest))
}

/// The limits of the header, and what stands behind it.
pub(crate) fn header_in(octets: &[u8]) -> Option<(Limits, &[u8])>
    ensures { MatchOption result (HasNoHeader octets.now)
        (λ x. AreInRange x.0 × (octets.now ≡ header x.0 ++ x.1.now)) }
{
    let rest = after(octets, MARK)?;
    legal_limits_in(rest)
}

#[tactic(auto, unfolding(crate::specs::Journal::header))]
fn header_octets(limits: &Limits) -> [u8; 16]
    ensures { result ≡ header limits.now }
{
    let [m0, m1, m2, m3, m4, m5, m6, m7] = *MARK;
    let [e0, e1, e2, e3] = limits.entries.to_be_bytes();
    let [o0, o1, o2, o3] = limits.octets.to_be_bytes();
    [
        m0, m1, m2, m3, m4, m5, m6, m7, e0, e1, e2, e3, o0, o1, o2, o3,
    ]
}

/// Writes the header of a journal with these limits behind what is there, which are 16 octets.
pub fn write_header(limits: &Limits, out: &mut Bytes) -> Result<(), NoMemory>
    requires { AreInRange limits.now }
    ensures ok { OnOk result (out.new ≡ out.old ++ header limits.now) }
    ensures err { OnErr result (out.new ≡ out.old) }
{
    out.extend_from_slice(&header_octets(limits))
}
