// Lines, read field by field.
ghost use Rattle.std.specs.Prelude.{◌≡◌, ◌∷◌, IfOk};
ghost use Rattle.std.specs.Option.{option_map};
ghost use Rattle.schema_text.specs.Grammar.{module_line, container_line, path_and_word, limit_of, list_line, reference_of, leaf_of, leaf_line, leaf_list_line, line_of_fields, line_of};

use crate::line::{Declared, Line};
use crate::numbers::number_up_to;
use crate::shapes::read_shape;
use crate::texts::{read_keys, read_path};
use base_kinds::{MOST_MAXIMUM, NoMemory, Shape, Texts};
use plain_texts::{Parts, is_word, name_text};
use std::alloc::Global;

/// `NAME` of a module.
fn read_module(alloc: Global, mut fields: Parts) -> Result<Option<Line>, NoMemory>
    ensures { IfOk result (λ line. line ≡ module_line fields.entry) }
{
    let Some(name) = fields.next() else {
        return Ok(None);
    };
    if !fields.is_empty() {
        return Ok(None);
    }
    let Some(name) = name_text(alloc, name)? else {
        return Ok(None);
    };
    Ok(Some(Line::Module(name)))
}

/// `PATH` of a container.
fn read_container(alloc: Global, mut fields: Parts) -> Result<Option<Line>, NoMemory>
    ensures { IfOk result (λ line. line ≡ container_line fields.entry) }
{
    let Some(path) = fields.next() else {
        return Ok(None);
    };
    if !fields.is_empty() {
        return Ok(None);
    }
    let Some(names) = read_path(alloc, path)? else {
        return Ok(None);
    };
    Ok(Some(Line::Node(names, Declared::Container)))
}

/// The path in the first field and the word in the second, which both are taken off.
fn read_path_and_word<'a>(
    alloc: Global,
    fields: &mut Parts<'a>,
) -> Result<Option<(Texts, &'a [u8])>, NoMemory>
    ensures { IfOk result (λ front. path_and_word fields.old
        ≡ option_map (λ f. (f.0, (f.1.now, fields.new))) front) }
{
    let Some(path) = fields.next() else {
        return Ok(None);
    };
    let Some(word) = fields.next() else {
        return Ok(None);
    };
    let Some(names) = read_path(alloc, path)? else {
        return Ok(None);
    };
    Ok(Some((names, word)))
}

/// Nothing, or `max N`.
fn read_limit(mut fields: Parts) -> Option<Option<u32>>
    ensures { result ≡ limit_of fields.entry }
{
    let Some(word) = fields.next() else {
        return Some(None);
    };
    let number = fields.next()?;
    if !fields.is_empty() || !is_word(word, b"max") {
        return None;
    }
    let most = number_up_to(MOST_MAXIMUM, number)?;
    Some(Some(most))
}

/// `PATH KEY,KEY` of a list, and its limit.
fn read_list(alloc: Global, mut fields: Parts) -> Result<Option<Line>, NoMemory>
    ensures { IfOk result (λ line. line ≡ list_line fields.entry) }
{
    let Some((names, keys)) = read_path_and_word(alloc, &mut fields)? else {
        return Ok(None);
    };
    let Some(keys) = read_keys(alloc, keys)? else {
        return Ok(None);
    };
    let Some(maximum) = read_limit(fields) else {
        return Ok(None);
    };
    Ok(Some(Line::Node(names, Declared::List(keys, maximum))))
}

/// `PATH` behind the word `ref`, which is to be this one.
fn read_named(
    alloc: Global,
    word: &[u8],
    mut fields: Parts,
) -> Result<Option<Option<Texts>>, NoMemory>
    ensures { IfOk result (λ reference. reference ≡ reference_of (word.now ∷ fields.entry)) }
{
    let Some(path) = fields.next() else {
        return Ok(None);
    };
    if !fields.is_empty() || !is_word(word, b"ref") {
        return Ok(None);
    }
    let Some(names) = read_path(alloc, path)? else {
        return Ok(None);
    };
    Ok(Some(Some(names)))
}

/// Nothing, or `ref PATH`.
fn read_reference(alloc: Global, mut fields: Parts) -> Result<Option<Option<Texts>>, NoMemory>
    ensures { IfOk result (λ reference. reference ≡ reference_of fields.entry) }
{
    let Some(word) = fields.next() else {
        return Ok(Some(None));
    };
    read_named(alloc, word, fields)
}

/// What may follow the shape of a leaf: `mandatory`, and then a reference.
fn read_marks(alloc: Global, shape: Shape, mut marks: Parts) -> Result<Option<Declared>, NoMemory>
    ensures { IfOk result (λ leaf. leaf ≡ leaf_of shape marks.entry) }
{
    let Some(word) = marks.next() else {
        return Ok(Some(Declared::Leaf(shape, false, None)));
    };
    let is_mandatory = is_word(word, b"mandatory");
    let reference = if is_mandatory {
        read_reference(alloc, marks)
    } else {
        read_named(alloc, word, marks)
    };
    match reference {
        Ok(Some(names)) => Ok(Some(Declared::Leaf(shape, is_mandatory, names))),
        Ok(None) => {
            drop(shape);
            Ok(None)
        }
        Err(NoMemory) => {
            drop(shape);
            Err(NoMemory)
        }
    }
}

/// `PATH SHAPE` of a leaf, and its marks.
fn read_leaf(alloc: Global, mut fields: Parts) -> Result<Option<Line>, NoMemory>
    ensures { IfOk result (λ line. line ≡ leaf_line fields.entry) }
{
    let Some((names, shape)) = read_path_and_word(alloc, &mut fields)? else {
        return Ok(None);
    };
    let Some(shape) = read_shape(alloc, shape)? else {
        return Ok(None);
    };
    let Some(leaf) = read_marks(alloc, shape, fields)? else {
        return Ok(None);
    };
    Ok(Some(Line::Node(names, leaf)))
}

/// `PATH SHAPE` of a leaf-list, and its limit.
fn read_leaf_list(alloc: Global, mut fields: Parts) -> Result<Option<Line>, NoMemory>
    ensures { IfOk result (λ line. line ≡ leaf_list_line fields.entry) }
{
    let Some((names, shape)) = read_path_and_word(alloc, &mut fields)? else {
        return Ok(None);
    };
    let Some(shape) = read_shape(alloc, shape)? else {
        return Ok(None);
    };
    let Some(maximum) = read_limit(fields) else {
        return Ok(None);
    };
    Ok(Some(Line::Node(names, Declared::LeafList(shape, maximum))))
}

/// What the fields say.
fn read_fields(alloc: Global, mut fields: Parts) -> Result<Option<Line>, NoMemory>
    ensures { IfOk result (λ line. line ≡ line_of_fields fields.entry) }
{
    let Some(word) = fields.next() else {
        return Ok(None);
    };
    if is_word(word, b"module") {
        return read_module(alloc, fields);
    }
    if is_word(word, b"container") {
        return read_container(alloc, fields);
    }
    if is_word(word, b"list") {
        return read_list(alloc, fields);
    }
    if is_word(word, b"leaf") {
        return read_leaf(alloc, fields);
    }
    if is_word(word, b"leaf-list") {
        return read_leaf_list(alloc, fields);
    }
    Ok(None)
}

/// What the octets say as a line.
pub(crate) fn read_line(alloc: Global, line: &[u8]) -> Result<Option<Line>, NoMemory>
    ensures { IfOk result (λ read. read ≡ line_of line.now) }
{
    match line {
        [] | [b'#', ..] => Ok(Some(Line::Skipped)),
        _ => read_fields(alloc, Parts::of(line, b' ')),
    }
}
