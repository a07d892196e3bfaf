// The longest prefix that two paths share.
ghost use Rattle.std.specs.Prelude.{◌≡◌, ◌≤◌, length, take};

use base_kinds::{Elem, Same};

/// How many elements at their beginning both paths have in common. Between neighbours among rising rows that is the
/// instances that were seen before.
pub(crate) fn shared_prefix_len(a: &[Elem], b: &[Elem]) -> usize
    ensures within { result ≤ length b.now }
    ensures same { take result a.now ≡ take result b.now }
{
    let mut n = 0;
    while n < a.len() && n < b.len() && a[n].same(&b[n]) {
        n += 1;
    }
    n
}
