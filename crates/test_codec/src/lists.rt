//! Lists and texts: UTF-8 at its bounds, orders, copies, groups of seven bits.
use base_lists::{
    Bytes, Copied, Remembered, Same, Seq, Text, TextOfFault, Texts, put_groups, rises,
};
use std::alloc::Global;
use std::cmp::Ordering;
use std::process::Abort;

fn octets_of(rt: &impl Abort, alloc: Global, octets: &[u8]) -> Bytes {
    let mut list = Bytes::empty(alloc);
    list.extend_from_slice(octets).expect(rt, "memory");
    list
}

fn text_of(rt: &impl Abort, alloc: Global, word: &str) -> Text {
    Text::of(alloc, word.as_bytes()).expect(rt, "a text")
}

fn texts_of(rt: &impl Abort, alloc: Global, words: &[&str]) -> Texts {
    let mut texts = Texts::empty(alloc);
    for word in words {
        texts.push(text_of(rt, alloc, word)).expect(rt, "memory");
    }
    texts
}

// RFC 3629 3 and 4: each form at its bounds.
const UTF_8: &[&[u8]] = &[
    b"",
    b"\x00r1\x7f",
    b"\xc2\x80\xdf\xbf",
    b"\xe0\xa0\x80\xed\x9f\xbf\xee\x80\x80\xe2\x82\xac",
    b"\xf0\x90\x80\x80\xf4\x8f\xbf\xbf",
];

// A lone continuation octet, overlong forms, a surrogate, a number above 10FFFF, forms that are cut
// off, and an octet that no form has.
const NOT_UTF_8: &[&[u8]] = &[
    b"a\x80",
    b"\xc0\xaf",
    b"\xe0\x9f\xbf",
    b"\xf0\x8f\xbf\xbf",
    b"\xed\xa0\x80",
    b"\xf4\x90\x80\x80",
    b"\xc2",
    b"\xe2\x82",
    b"a\xf0\x9f\x98b",
    b"\xff",
];

fn is_text_of(alloc: Global, octets: &[u8]) -> bool {
    Text::of(alloc, octets).is_ok_and(|text| text.octets() == octets)
}

fn is_no_text(alloc: Global, octets: &[u8]) -> bool {
    matches!(Text::of(alloc, octets), Err(TextOfFault::NotUtf8))
}

#[test]
fn a_text_is_utf_8(rt: HostRuntime) {
    for octets in UTF_8 {
        assert!(rt; is_text_of(rt.alloc(), octets), "taken: {octets:?}");
    }
    for octets in NOT_UTF_8 {
        assert!(rt; is_no_text(rt.alloc(), octets), "refused: {octets:?}");
    }
}

const ORDERS: &[(&str, &str, Ordering)] = &[
    ("", "", Ordering::Equal),
    ("", "a", Ordering::Less),
    ("a", "a", Ordering::Equal),
    ("a", "ab", Ordering::Less),
    ("ab", "b", Ordering::Less),
    ("aa", "ab", Ordering::Less),
    ("Z", "a", Ordering::Less),
    ("b", "abc", Ordering::Greater),
    ("z", "\u{e9}", Ordering::Less),
];

/// Whether two texts have this order each way round, and are equal only by it.
fn are_texts_in(order: Ordering, x: &Text, y: &Text) -> bool {
    let is_equal = order == Ordering::Equal;
    x.cmp(y) == order
        && y.cmp(x) == order.reverse()
        && x.partial_cmp(y) == Some(order)
        && (x == y) == is_equal
        && x.same(y) == is_equal
}

fn are_octets_in(order: Ordering, x: &Bytes, y: &Bytes) -> bool {
    let is_equal = order == Ordering::Equal;
    x.cmp(y) == order
        && y.cmp(x) == order.reverse()
        && x.partial_cmp(y) == Some(order)
        && (x == y) == is_equal
        && x.same(y) == is_equal
}

/// Whether the text has this order to that of the word.
fn is_text_in(rt: &impl Abort, alloc: Global, order: Ordering, text: &Text, word: &str) -> bool {
    are_texts_in(order, text, &text_of(rt, alloc, word))
}

/// Whether the list has this order to that of the word's octets.
fn is_list_in(rt: &impl Abort, alloc: Global, order: Ordering, list: &Bytes, word: &str) -> bool {
    are_octets_in(order, list, &octets_of(rt, alloc, word.as_bytes()))
}

fn are_in_order_as_texts(
    rt: &impl Abort,
    alloc: Global,
    order: Ordering,
    x: &str,
    y: &str,
) -> bool {
    is_text_in(rt, alloc, order, &text_of(rt, alloc, x), y)
}

fn are_in_order_as_lists(
    rt: &impl Abort,
    alloc: Global,
    order: Ordering,
    x: &str,
    y: &str,
) -> bool {
    is_list_in(rt, alloc, order, &octets_of(rt, alloc, x.as_bytes()), y)
}

#[test]
fn lists_and_texts_are_the_same_or_in_order(rt: HostRuntime) {
    let alloc = rt.alloc();
    for (a, b, order) in ORDERS {
        let are_in_order = are_in_order_as_texts(&rt, alloc, *order, a, b)
            && are_in_order_as_lists(&rt, alloc, *order, a, b);
        assert!(rt; are_in_order, "{a} {b}");
    }
}

/// Lists of texts, and the order of the list `a`, `b` to each.
const LISTS: &[(&[&str], Ordering)] = &[
    (&["a", "b"], Ordering::Equal),
    (&["a"], Ordering::Greater),
    (&["a", "b", ""], Ordering::Less),
    (&["ab"], Ordering::Less),
    (&["a", "a", "z"], Ordering::Greater),
];

fn have_order(one: &Texts, other: &Texts, order: Ordering) -> bool {
    one.cmp(other) == order && one.same(other) == (order == Ordering::Equal)
}

/// Whether the list has this order to that of the words.
fn has_order_to(
    rt: &impl Abort,
    alloc: Global,
    list: &Texts,
    words: &[&str],
    order: Ordering,
) -> bool {
    have_order(list, &texts_of(rt, alloc, words), order)
}

#[test]
fn a_list_of_texts_compares_text_by_text(rt: HostRuntime) {
    let alloc = rt.alloc();
    for (words, order) in LISTS {
        let is_in_order = has_order_to(
            &rt,
            alloc,
            &texts_of(&rt, alloc, &["a", "b"]),
            words,
            *order,
        );
        assert!(rt; is_in_order, "{words:?}");
    }
}

/// Whether a copy of three texts equals them, and not any more once another text stands in it.
fn is_copied(rt: &impl Abort, alloc: Global, texts: &Texts) -> bool {
    let mut copy = texts.copy(alloc).expect(rt, "memory");
    let was_equal = copy == *texts;
    copy.push(text_of(rt, alloc, "d")).expect(rt, "memory");
    was_equal && copy != *texts && !copy.same(texts) && (copy.len(), texts.len()) == (4, 3)
}

fn are_same_pairs(x: &(Bytes, u8), y: &(Bytes, u8)) -> bool {
    x.same(y)
}

#[test]
fn a_copy_is_a_value_of_its_own(rt: HostRuntime) {
    let alloc = rt.alloc();
    assert!(rt; is_copied(&rt, alloc, &texts_of(&rt, alloc, &["a", "", "bc"])));
    assert!(rt;
        Bytes::empty(alloc)
            .copy(alloc)
            .is_ok_and(|copy| copy.is_empty())
    );
}

fn is_same_as_copy(alloc: Global, pair: &(Bytes, u8)) -> bool {
    pair.copy(alloc)
        .is_ok_and(|copy| are_same_pairs(&copy, pair))
}

/// Whether the pair is the same as that of the octets and the number.
fn is_same_as(
    rt: &impl Abort,
    alloc: Global,
    pair: &(Bytes, u8),
    octets: &[u8],
    number: u8,
) -> bool {
    are_same_pairs(&(octets_of(rt, alloc, octets), number), pair)
}

/// Whether the pair of `name` and 7 is the same as its copy, and as no other one.
fn is_same_alone(rt: &impl Abort, alloc: Global, pair: &(Bytes, u8)) -> bool {
    is_same_as_copy(alloc, pair)
        && !is_same_as(rt, alloc, pair, b"name", 8)
        && !is_same_as(rt, alloc, pair, b"nam", 7)
}

#[test]
fn a_pair_is_the_same_by_both_its_parts(rt: HostRuntime) {
    let alloc = rt.alloc();
    let is_same = is_same_alone(&rt, alloc, &(octets_of(&rt, alloc, b"name"), 7));
    assert!(rt; is_same);
}

fn five_octets(rt: &impl Abort, alloc: Global) -> Bytes {
    let mut list = Seq::from_vec(vec![in alloc; 5u8, 6u8].expect(rt, "memory"));
    list.extend_from_slice(&[]).expect(rt, "memory");
    list.extend_from_slice(&[7, 8]).expect(rt, "memory");
    list.push(9).expect(rt, "memory");
    list
}

/// Whether the list gives these octets, the first and the fifth of them, and no sixth.
fn gives(list: &Bytes, octets: &[u8; 5]) -> bool {
    !list.is_empty()
        && list.items() == octets.as_slice()
        && list.get(0) == Some(&octets[0])
        && list.get(4) == Some(&octets[4])
        && list.get(5).is_none()
}

/// Whether the list gives these octets, one at a time, all, and as what it is made of.
fn is_made_of(list: Bytes, octets: &[u8; 5]) -> bool {
    let are_given = gives(&list, octets);
    let made_of = list.into_vec();
    are_given && made_of.as_slice() == octets.as_slice()
}

#[test]
fn a_list_gives_its_items(rt: HostRuntime) {
    let alloc = rt.alloc();
    assert!(rt; Bytes::empty(alloc).is_empty());
    assert!(rt; is_made_of(five_octets(&rt, alloc), &[5, 6, 7, 8, 9]));
}

#[test]
fn of_what_is_remembered_a_tag_alone_is_kept(rt: HostRuntime) {
    let mut past = Remembered::nothing();
    past.remember(&5u64);
    past.remember(&6u64);
    assert!(rt; std::mem::size_of::<Remembered<u64>>() == 1);
}

const NAMES: &[(&[&str], bool)] = &[
    (&[], true),
    (&["b"], true),
    (&["a", "ab", "b"], true),
    (&["a", "a"], false),
    (&["a", "c", "b"], false),
    (&["b", "a", "c"], false),
];

fn keys_of(rt: &impl Abort, alloc: Global, words: &[&str]) -> Seq<(Text, u8)> {
    let mut keys = Seq::empty(alloc);
    for word in words {
        keys.push((text_of(rt, alloc, word), 0u8))
            .expect(rt, "memory");
    }
    keys
}

fn names_rise(rt: &impl Abort, alloc: Global, words: &[&str]) -> bool {
    rises(keys_of(rt, alloc, words).items())
}

#[test]
fn names_that_rise_and_names_that_do_not(rt: HostRuntime) {
    for (words, is_rising) in NAMES {
        assert!(rt;
            names_rise(&rt, rt.alloc(), words) == *is_rising,
            "{words:?}"
        );
    }
}

// protobuf.dev, "Encoding", has 1 and 150; RFC 7541 C.1.2 has 1306 behind a prefix of 31.
const GROUPS: &[(u64, &[u8])] = &[
    (0, b"\x00"),
    (1, b"\x01"),
    (150, b"\x96\x01"),
    (1306, b"\x9a\x0a"),
    (u64::MAX, b"\xff\xff\xff\xff\xff\xff\xff\xff\xff\x01"),
];

fn are_groups_of(alloc: Global, number: u64, octets: &[u8]) -> bool {
    let mut out = Bytes::empty(alloc);
    put_groups(number, &mut out).is_ok() && out.items() == octets
}

#[test]
fn groups_of_seven_bits_are_as_the_field_writes_them(rt: HostRuntime) {
    for (number, octets) in GROUPS {
        assert!(rt; are_groups_of(rt.alloc(), *number, octets), "{number}");
    }
}
