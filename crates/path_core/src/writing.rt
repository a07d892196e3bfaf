// The text of a path, written.
ghost use Rattle.std.specs.Prelude.{◌≡◌, ◌++◌, OnOk, OnErr};
ghost use Rattle.std.specs.List.{flat_map};
ghost use Rattle.base_kinds.specs.Texts.{octet_text, escaped, is_key_octet, key_part, elem_text, path_text};
ghost use Rattle.path_core.specs.inner.Reading.{test_of};

use crate::escapes::{Part, hex_digit, stands_for_itself};
use base_kinds::{Bytes, Elem, NoMemory, Path, Text};
use std::alloc::Global;

fn write_octet(part: Part, octet: u8, out: &mut Bytes) -> Result<(), NoMemory>
    ensures { OnOk result (out.new ≡ out.old ++ octet_text (test_of part) octet) }
{
    if stands_for_itself(part, octet) {
        return out.push(octet);
    }
    out.extend_from_slice(&[b'\\', hex_digit(octet / 16), hex_digit(octet % 16)])
}

fn write_octets(part: Part, octets: &[u8], out: &mut Bytes) -> Result<(), NoMemory>
    ensures { OnOk result (out.new ≡ out.old ++ escaped (test_of part) octets.now) }
{
    for octet in octets {
        write_octet(part, *octet, out)?;
    }
    Ok(())
}

fn write_key(key: &(Text, Text), out: &mut Bytes) -> Result<(), NoMemory>
    ensures { OnOk result (out.new ≡ out.old ++ key_part key.now) }
{
    out.push(b'[')?;
    write_octets(Part::Name, key.0.octets(), out)?;
    out.push(b'=')?;
    write_octets(Part::Value, key.1.octets(), out)?;
    out.push(b']')
}

fn write_keys(keys: &[(Text, Text)], out: &mut Bytes) -> Result<(), NoMemory>
    ensures { OnOk result (out.new ≡ out.old ++ flat_map key_part keys.now) }
{
    for key in keys {
        write_key(key, out)?;
    }
    Ok(())
}

fn write_elem(elem: &Elem, out: &mut Bytes) -> Result<(), NoMemory>
    ensures { OnOk result (out.new ≡ out.old ++ elem_text elem.now) }
{
    out.push(b'/')?;
    write_octets(Part::Name, elem.name.octets(), out)?;
    write_keys(elem.keys.items(), out)
}

fn write_elems(elems: &[Elem], out: &mut Bytes) -> Result<(), NoMemory>
    ensures { OnOk result (out.new ≡ out.old ++ flat_map elem_text elems.now) }
{
    for elem in elems {
        write_elem(elem, out)?;
    }
    Ok(())
}

/// Adds the text in the form in which a path's text has the values of its keys. Without memory nothing is added.
pub fn write_value_text(alloc: Global, value: &Text, out: &mut Bytes) -> Result<(), NoMemory>
    ensures ok { OnOk result (out.new ≡ out.old ++ escaped is_key_octet value.now) }
    ensures err { OnErr result (out.new ≡ out.old) }
{
    let mut text = Bytes::empty(alloc);
    write_octets(Part::Value, value.octets(), &mut text)?;
    out.extend_from_slice(text.items())
}

/// Adds the path's text. An empty element name is written as no octets. Without memory nothing is added.
pub fn write_path_text(alloc: Global, path: &Path, out: &mut Bytes) -> Result<(), NoMemory>
    ensures ok { OnOk result (out.new ≡ out.old ++ path_text path.now) }
    ensures err { OnErr result (out.new ≡ out.old) }
{
    if path.is_empty() {
        return out.push(b'/');
    }
    let mut text = Bytes::empty(alloc);
    write_elems(path.items(), &mut text)?;
    out.extend_from_slice(text.items())
}
