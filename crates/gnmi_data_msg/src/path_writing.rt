//! Writing a Path.
ghost use Rattle.std.specs.Prelude.{◌≡◌, ◌++◌, ◌≤◌, IfOk, OnOk, OnErr};
ghost use Rattle.pb_wire.specs.Writing.{octets_field};
ghost use Rattle.gnmi_data_msg.specs.Writing.{text_field, message_fields, path_message};

use crate::numbers::{
    ELEM_KEY, ELEM_NAME, ENTRY_KEY, ENTRY_VALUE, PATH_ELEM, PATH_ORIGIN, PATH_TARGET,
};
use base_kinds::{Elem, Path};
use base_lists::{Bytes, NoMemory, Text};
use gnmi_kinds::GnmiPath;
use pb_wire::put_octets;
use std::alloc::Global;

/// A value that is written as one message.
pub trait Written {
    ghost use Rattle.std.specs.Prelude.{List, ℕ};

    ghost octets: { Self → List ℕ };

    fn written(&self, alloc: Global) -> Result<Bytes, NoMemory>
        ensures { IfOk result (λ message. message ≡ octets self.now) };
}

/// Adds the messages of a repeated field. After want of memory nothing is added.
pub fn put_messages<T: Written>(
    alloc: Global,
    number: u32,
    items: &[T],
    out: &mut Bytes,
) -> Result<(), NoMemory>
    requires some { 1 ≤ number }
    requires one_octet { number ≤ 15 }
    ensures ok { OnOk result (out.new ≡ out.old ++ message_fields T.octets number items.now) }
    ensures err { OnErr result (out.new ≡ out.old) }
{
    let mut added = Bytes::empty(alloc);
    for item in items {
        let message = item.written(alloc)?;
        put_octets(number, message.items(), &mut added)?;
    }
    out.extend_from_slice(added.items())
}

/// Adds a single string, where it isn't empty. After want of memory nothing is added.
pub fn put_text(alloc: Global, number: u32, text: &[u8], out: &mut Bytes) -> Result<(), NoMemory>
    requires some { 1 ≤ number }
    requires one_octet { number ≤ 15 }
    ensures ok { OnOk result (out.new ≡ out.old ++ text_field number text.now) }
    ensures err { OnErr result (out.new ≡ out.old) }
{
    if text.is_empty() {
        return Ok(());
    }
    put_message(alloc, number, text, out)
}

/// Adds a field with these octets, whatever they are. After want of memory nothing is added.
pub fn put_message(
    alloc: Global,
    number: u32,
    message: &[u8],
    out: &mut Bytes,
) -> Result<(), NoMemory>
    requires some { 1 ≤ number }
    requires one_octet { number ≤ 15 }
    ensures ok { OnOk result (out.new ≡ out.old ++ octets_field number message.now) }
    ensures err { OnErr result (out.new ≡ out.old) }
{
    let mut added = Bytes::empty(alloc);
    put_octets(number, message, &mut added)?;
    out.extend_from_slice(added.items())
}

impl Written for (Text, Text) {
    ghost use Rattle.gnmi_data_msg.specs.Writing.{entry_message};

    ghost octets = { entry_message };

    fn written(&self, alloc: Global) -> Result<Bytes, NoMemory> {
        let mut message = Bytes::empty(alloc);
        put_text(alloc, ENTRY_KEY, self.0.octets(), &mut message)?;
        put_text(alloc, ENTRY_VALUE, self.1.octets(), &mut message)?;
        Ok(message)
    }
}

impl Written for Elem {
    ghost use Rattle.gnmi_data_msg.specs.Writing.{elem_message};

    ghost octets = { elem_message };

    fn written(&self, alloc: Global) -> Result<Bytes, NoMemory> {
        let mut message = Bytes::empty(alloc);
        put_text(alloc, ELEM_NAME, self.name.octets(), &mut message)?;
        put_messages(alloc, ELEM_KEY, self.keys.items(), &mut message)?;
        Ok(message)
    }
}

impl Written for Path {
    ghost use Rattle.gnmi_data_msg.specs.Writing.{path_message};

    ghost octets = { path_message };

    fn written(&self, alloc: Global) -> Result<Bytes, NoMemory> {
        let mut message = Bytes::empty(alloc);
        put_messages(alloc, PATH_ELEM, self.items(), &mut message)?;
        Ok(message)
    }
}

/// A path with its origin and its target; the deprecated field `element` isn't written.
impl Written for GnmiPath {
    ghost use Rattle.gnmi_data_msg.specs.Writing.{whole_path_message};

    ghost octets = { whole_path_message };

    fn written(&self, alloc: Global) -> Result<Bytes, NoMemory> {
        let mut message = Bytes::empty(alloc);
        put_text(alloc, PATH_ORIGIN, self.origin.octets(), &mut message)?;
        put_messages(alloc, PATH_ELEM, self.path.items(), &mut message)?;
        put_text(alloc, PATH_TARGET, self.target.octets(), &mut message)?;
        Ok(message)
    }
}

/// Adds the octets of a Path of these elements, without origin and target. After want of memory nothing is added.
pub fn write_path(alloc: Global, path: &Path, out: &mut Bytes) -> Result<(), NoMemory>
    ensures ok { OnOk result (out.new ≡ out.old ++ path_message path.now) }
    ensures err { OnErr result (out.new ≡ out.old) }
{
    let message = path.written(alloc)?;
    out.extend_from_slice(message.items())
}
