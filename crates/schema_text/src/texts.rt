// Lists of texts: the names of a path, the names of keys, the texts of an enum.
ghost use Rattle.std.specs.Prelude.{◌≡◌, [], Some, None, if◌then◌else◌, IfOk};
ghost use Rattle.std.specs.Option.{option_and_then};
ghost use Rattle.schema_core.specs.Shapes.{texts_differ};
ghost use Rattle.schema_text.specs.Words.{some_parts, distinct, path_of, keys_of, enum_texts};
ghost use Rattle.schema_text.specs.inner.Kinds.{passes};

use crate::octets::is_enum_text;
use base_kinds::{NoMemory, Seq, Text, Texts};
use plain_texts::{Parts, has_text, is_name, text_of};
use schema_core::{MOST_ENUM_TEXTS, MOST_KEYS, MOST_NAMES};
use std::alloc::Global;

#[derive(Clone, Copy)]
pub(crate) enum Word {
    Name,
    EnumText,
}

impl Word {
    fn is(self, octets: &[u8]) -> bool
        ensures { result ≡ passes self octets.now }
    {
        match self {
            Word::Name => is_name(octets),
            Word::EnumText => is_enum_text(octets),
        }
    }
}

/// Adds the parts as texts, and answers whether there is one or more, at most so many, and each is such a word.
fn put_texts(
    alloc: Global,
    mut parts: Parts,
    word: Word,
    most: usize,
    texts: &mut Texts,
) -> Result<bool, NoMemory>
    requires { texts.old ≡ [] }
    ensures { IfOk result (λ is_whole. some_parts (passes word) most parts.entry
        ≡ if is_whole then Some texts.new else None) }
{
    while let Some(part) = parts.next() {
        if texts.len() == most {
            return Ok(false);
        }
        if !word.is(part) {
            return Ok(false);
        }
        texts.push(text_of(alloc, part)?)?;
    }
    Ok(!texts.is_empty())
}

/// The parts as texts, where there is one or more, at most so many, and each is such a word.
fn read_texts(
    alloc: Global,
    parts: Parts,
    word: Word,
    most: usize,
) -> Result<Option<Texts>, NoMemory>
    ensures { IfOk result (λ texts. texts ≡ some_parts (passes word) most parts.entry) }
{
    let mut texts = Seq::empty(alloc);
    match put_texts(alloc, parts, word, most, &mut texts) {
        Ok(true) => Ok(Some(texts)),
        Ok(false) => {
            drop(texts);
            Ok(None)
        }
        Err(NoMemory) => {
            drop(texts);
            Err(NoMemory)
        }
    }
}

fn all_differ(texts: &[Text]) -> bool
    ensures { result ≡ texts_differ texts.now }
{
    match texts.split_first() {
        None => true,
        Some((text, others)) => !has_text(text.octets(), others) && all_differ(others),
    }
}

fn read_distinct(
    alloc: Global,
    parts: Parts,
    word: Word,
    most: usize,
) -> Result<Option<Texts>, NoMemory>
    ensures { IfOk result (λ texts. texts ≡
        option_and_then distinct (some_parts (passes word) most parts.entry)) }
{
    let Some(texts) = read_texts(alloc, parts, word, most)? else {
        return Ok(None);
    };
    if !all_differ(texts.items()) {
        return Ok(None);
    }
    Ok(Some(texts))
}

/// The names of `/NAME`, 1 to 32 times.
pub(crate) fn read_path(alloc: Global, octets: &[u8]) -> Result<Option<Texts>, NoMemory>
    ensures { IfOk result (λ names. names ≡ path_of octets.now) }
{
    let mut names = Parts::of(octets, b'/');
    let Some(front) = names.next() else {
        return Ok(None);
    };
    if !front.is_empty() {
        return Ok(None);
    }
    read_texts(alloc, names, Word::Name, MOST_NAMES)
}

/// 1 to 8 distinct names with a comma between two of them.
pub(crate) fn read_keys(alloc: Global, octets: &[u8]) -> Result<Option<Texts>, NoMemory>
    ensures { IfOk result (λ keys. keys ≡ keys_of octets.now) }
{
    read_distinct(alloc, Parts::of(octets, b','), Word::Name, MOST_KEYS)
}

/// 1 to 256 distinct texts of an enum with `|` between two of them.
pub(crate) fn read_enum_texts(alloc: Global, octets: &[u8]) -> Result<Option<Texts>, NoMemory>
    ensures { IfOk result (λ texts. texts ≡ enum_texts octets.now) }
{
    read_distinct(
        alloc,
        Parts::of(octets, b'|'),
        Word::EnumText,
        MOST_ENUM_TEXTS,
    )
}
