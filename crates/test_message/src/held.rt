//! What a message holds under a number.
use pb_message::{
    has_number_above, is_message, member_under, message_under, next_piece, number_under, text_under,
};
use std::test::Fail;

// 1: "a", 2: 5, an unknown 9: "x", 1: "b", 2: 300, and 2 with another wire type.
const MIXED: &[u8] = b"\x0a\x01a\x10\x05\x4a\x01x\x0a\x01b\x10\xac\x02\x12\x01c";

#[test]
fn the_last_of_a_number_counts(rt: HostRuntime) -> Result<(), Fail> {
    assert!(rt; is_message(MIXED));
    assert!(rt; !is_message(b"\x08"));
    assert_eq!(rt; number_under(MIXED, 2), Some(300));
    assert_eq!(rt; number_under(MIXED, 1), None);
    assert!(rt; text_under(rt.alloc(), MIXED, 1)?.octets() == b"b".as_slice());
    assert!(rt; has_number_above(MIXED, 8));
    assert!(rt; !has_number_above(MIXED, 9));
    Ok(())
}

#[test]
fn messages_are_joined_and_a_oneof_holds_its_last_run(rt: HostRuntime) -> Result<(), Fail> {
    let joined = message_under(rt.alloc(), MIXED, 1)?;
    assert!(rt; joined.is_some_and(|octets| octets.items() == b"ab".as_slice()));
    let member = member_under(rt.alloc(), MIXED, &[1, 9])?;
    assert!(rt; member.is_some_and(|held| held.0 == 1 && held.1.items() == b"b".as_slice()));
    let piece = next_piece(MIXED, 3, 1);
    assert!(rt; piece.is_some_and(|found| found.0 == b"b".as_slice() && found.1 == 11));
    Ok(())
}
