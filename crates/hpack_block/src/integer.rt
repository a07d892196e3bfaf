ghost use Rattle.std.specs.Prelude.{◌≡◌, ◌<◌, ◌≤◌, length, option_map, IfSome};
ghost use Rattle.hpack_block.specs.inner.Reading.{bounded, groups_at, integer_at};
ghost use Rattle.hpack_block.specs.Integers.{largest_integer, most_groups};

const LARGEST: usize = 2_147_483_647;

const MOST_GROUPS: u32 = 5;

/// The integer at the front, which has a prefix of so many bits, and the octets after it.
pub(crate) fn integer_in(bits: u32, octets: &[u8]) -> Option<(usize, &[u8])>
    requires some { 1 ≤ bits }
    requires in_octet { bits ≤ 7 }
    ensures small { IfSome result (λ x. x.0 ≤ largest_integer) }
    ensures shorter { IfSome result (λ x. length x.1.now < length octets.now) }
    ensures value { option_map (λ x. (x.0, x.1.now)) result ≡ integer_at bits octets.now }
{
    let (first, after) = octets.split_first()?;
    let size = 1usize << bits;
    let low = usize::from(*first) % size;
    if low < size - 1 {
        return Some((low, after));
    }
    let (more, rest) = groups_in(MOST_GROUPS, after)?;
    bounded(size - 1 + more, rest)
}

/// What at most so many octets hold, seven bits each, the lowest first.
fn groups_in(most: u32, octets: &[u8]) -> Option<(usize, &[u8])>
    ensures small { IfSome result (λ x. x.0 ≤ largest_integer) }
    ensures shorter { IfSome result (λ x. length x.1.now < length octets.now) }
    ensures value { option_map (λ x. (x.0, x.1.now)) result ≡ groups_at most octets.now }
{
    if most == 0 {
        return None;
    }
    let (first, after) = octets.split_first()?;
    if *first < 128 {
        return Some((usize::from(*first), after));
    }
    let (higher, rest) = groups_in(most - 1, after)?;
    bounded(usize::from(*first % 128) + 128 * higher, rest)
}

fn bounded(n: usize, rest: &[u8]) -> Option<(usize, &[u8])>
    ensures small { IfSome result (λ x. x.0 ≤ largest_integer) }
    ensures same { IfSome result (λ x. x.1.now ≡ rest.now) }
    ensures value { option_map (λ x. (x.0, x.1.now)) result ≡ bounded n rest.now }
{
    if n > LARGEST {
        return None;
    }
    Some((n, rest))
}
