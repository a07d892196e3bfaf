//! The parts of which readers and writers of messages are made.
use base_kinds::Elem;
use base_lists::{Bytes, Text};
use gnmi_data_msg::{
    are_texts, fields_in, messages_in, put_messages, put_number, single_text, text_of,
};
use std::test::Fail;

// 1: "a" twice, and 3: an element with the name "b".
const MESSAGE: &[u8] = b"\x0a\x01x\x0a\x01a\x1a\x03\x0a\x01b";

#[test]
fn parts_of_a_message(rt: HostRuntime) -> Result<(), Fail> {
    let alloc = rt.alloc();
    let fields = fields_in(alloc, MESSAGE)?;
    assert!(rt; are_texts(MESSAGE, fields.items(), 1));
    let text = single_text(alloc, MESSAGE, fields.items(), 1)?;
    let other: Text = text_of(alloc, b"a")?;
    assert!(rt; text.octets() == other.octets());
    let elems = messages_in::<Elem>(alloc, MESSAGE, fields.items(), 3)?;
    let mut out = Bytes::empty(alloc);
    put_number(alloc, 1, 0, &mut out)?;
    put_messages(alloc, 3, elems.items(), &mut out)?;
    assert!(rt; out.items() == b"\x1a\x03\x0a\x01b".as_slice());
    Ok(())
}
