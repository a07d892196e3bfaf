// The text of a path, read in one pass.
ghost use Rattle.std.specs.Prelude.{◌≡◌, ◌<◌, ◌≤◌, [], ◌∷◌, List, ℕ, length, IfOk, OnOk, IfSome, IfNone, IsTrue, ◌↔◌, IsErrOf};
ghost use Rattle.base_kinds.specs.declared.path.Elem.{Elem as PathElem};
ghost use Rattle.path_core.specs.PathText.{name_cmp, IsPathText, IsValueText};
ghost use Rattle.path_core.specs.inner.Reading.{AreOctetsAt, IsTextAt, IsKeyAt, AreKeysAt, IsElemAt, BeginsOrEnds, Lacks, ends_below};

use crate::escapes::{Part, read_octet};
use crate::fault::PathFault;
use base_kinds::{Elem, Keys, NoMemory, Path, Seq, Text, TextOfFault};
use std::alloc::Global;

/// What follows the octet, where the text begins with it.
fn after(text: &[u8], octet: u8) -> Option<&[u8]>
    ensures some { IfSome result (λ rest. text.now ≡ octet ∷ rest.now) }
    ensures shorter { IfSome result (λ rest. length rest.now < length text.now) }
    ensures none { IfNone result (Lacks octet text.now) }
{
    match text {
        [] => None,
        [first, rest @ ..] => if *first == octet { Some(rest) } else { None },
    }
}

/// The octets that are spelled at the front, as many as there are, and what follows them.
fn read_octets(alloc: Global, part: Part, text: &[u8]) -> Result<(Vec<u8>, &[u8]), NoMemory>
    ensures octets { IfOk result (λ read. AreOctetsAt part text.now read.0.items read.1.now) }
    ensures shorter { IfOk result (λ read. length read.1.now ≤ length text.now) }
{
    let mut octets = Vec::new(alloc);
    let mut rest = text;
    while let Some((octet, others)) = read_octet(part, rest) {
        octets.push(octet)?;
        rest = others;
    }
    Ok((octets, rest))
}

fn read_text(alloc: Global, part: Part, text: &[u8]) -> Result<(Text, &[u8]), PathFault>
    ensures ok { IfOk result (λ read. IsTextAt part text.now read.0 read.1.now) }
    ensures shorter { IfOk result (λ read. length read.1.now ≤ length text.now) }
    ensures bad { IsErrOf result PathFault.BadPath →
        (octets rest : List ℕ) → IsTextAt part text.now octets rest → ⊥ }
{
    let (octets, rest) = read_octets(alloc, part, text)?;
    match Text::of(alloc, &octets) {
        Ok(read) => Ok((read, rest)),
        Err(TextOfFault::NotUtf8) => Err(PathFault::BadPath),
        Err(TextOfFault::NoMemory) => Err(PathFault::NoMemory),
    }
}

/// The text that the octets spell, in the form in which a path's text has the values of its keys.
pub fn read_value_text(alloc: Global, text: &[u8]) -> Result<Text, PathFault>
    ensures ok { IfOk result (λ value. IsValueText text.now value) }
    ensures bad { IsErrOf result PathFault.BadPath →
        (value : List ℕ) → IsValueText text.now value → ⊥ }
{
    let (value, rest) = read_text(alloc, Part::Value, text)?;
    if !rest.is_empty() {
        return Err(PathFault::BadPath);
    }
    Ok(value)
}

/// The text that is spelled up to this octet, and what follows that.
fn read_text_before(
    alloc: Global,
    part: Part,
    text: &[u8],
    ending: u8,
) -> Result<(Text, &[u8]), PathFault>
    ensures ok { IfOk result (λ read. IsTextAt part text.now read.0 (ending ∷ read.1.now)) }
    ensures shorter { IfOk result (λ read. length read.1.now < length text.now) }
    ensures bad { IsErrOf result PathFault.BadPath →
        (octets rest : List ℕ) → IsTextAt part text.now octets (ending ∷ rest) → ⊥ }
{
    match read_text(alloc, part, text) {
        Ok((read, ended)) => match after(ended, ending) {
            Some(rest) => Ok((read, rest)),
            None => {
                drop(read);
                Err(PathFault::BadPath)
            }
        },
        Err(fault) => Err(fault),
    }
}

/// `NAME=VALUE]`, what follows the `[` of a key.
fn read_key(alloc: Global, begun: &[u8]) -> Result<((Text, Text), &[u8]), PathFault>
    ensures ok { IfOk result (λ read. IsKeyAt (91 ∷ begun.now) read.0 read.1.now) }
    ensures shorter { IfOk result (λ read. length read.1.now ≤ length begun.now) }
    ensures bad { IsErrOf result PathFault.BadPath →
        (key : List ℕ × List ℕ) (rest : List ℕ) → IsKeyAt (91 ∷ begun.now) key rest → ⊥ }
{
    match read_text_before(alloc, Part::Name, begun, b'=') {
        Ok((name, given)) => match read_text_before(alloc, Part::Value, given, b']') {
            Ok((value, rest)) => Ok(((name, value), rest)),
            Err(fault) => {
                drop(name);
                Err(fault)
            }
        },
        Err(fault) => Err(fault),
    }
}

/// Whether the key's name is greater than that of the last key, if there is one.
fn may_follow(keys: &[(Text, Text)], key: &(Text, Text)) -> bool
    ensures { result ≡ ends_below name_cmp keys.now key.now }
{
    match keys.last() {
        None => true,
        Some(last) => last.0.cmp(&key.0).is_lt(),
    }
}

/// The keys of an element, as many as there are, and what follows them.
fn read_keys(alloc: Global, text: &[u8]) -> Result<(Keys, &[u8]), PathFault>
    ensures ok { IfOk result (λ read. AreKeysAt text.now read.0 read.1.now) }
    ensures shorter { IfOk result (λ read. length read.1.now ≤ length text.now) }
    ensures bad { IsErrOf result PathFault.BadPath →
        (keys : List (List ℕ × List ℕ)) (rest : List ℕ) → AreKeysAt text.now keys rest → ⊥ }
{
    let mut keys = Seq::empty(alloc);
    match put_keys(alloc, text, &mut keys) {
        Ok(rest) => Ok((keys, rest)),
        Err(fault) => {
            drop(keys);
            Err(fault)
        }
    }
}

/// Adds the keys of an element, as many as there are, and gives what follows them.
fn put_keys<'t>(alloc: Global, text: &'t [u8], keys: &mut Keys) -> Result<&'t [u8], PathFault>
    requires { keys.old ≡ [] }
    ensures ok { IfOk result (λ rest. AreKeysAt text.now keys.new rest.now) }
    ensures shorter { IfOk result (λ rest. length rest.now ≤ length text.now) }
    ensures bad { IsErrOf result PathFault.BadPath →
        (others : List (List ℕ × List ℕ)) (rest : List ℕ) → AreKeysAt text.now others rest → ⊥ }
{
    let mut rest = text;
    while let Some(begun) = after(rest, b'[') {
        let (key, others) = read_key(alloc, begun)?;
        if !may_follow(keys.items(), &key) {
            drop(key);
            return Err(PathFault::BadPath);
        }
        keys.push(key)?;
        rest = others;
    }
    Ok(rest)
}

/// Whether nothing follows an element, or another one.
fn ends_elem(rest: &[u8]) -> bool
    ensures { IsTrue result ↔ BeginsOrEnds 47 rest.now }
{
    match rest.first() {
        None => true,
        Some(octet) => *octet == b'/',
    }
}

/// `/NAME` and its keys, and what follows them.
fn read_elem(alloc: Global, text: &[u8]) -> Result<(Elem, &[u8]), PathFault>
    ensures ok { IfOk result (λ read. IsElemAt text.now read.0 read.1.now) }
    ensures shorter { IfOk result (λ read. length read.1.now < length text.now) }
    ensures bad { IsErrOf result PathFault.BadPath →
        (elem : PathElem) (rest : List ℕ) → IsElemAt text.now elem rest → ⊥ }
{
    let Some(begun) = after(text, b'/') else {
        return Err(PathFault::BadPath);
    };
    let (name, named) = read_text(alloc, Part::Name, begun)?;
    if name.octets().is_empty() {
        drop(name);
        return Err(PathFault::BadPath);
    }
    match read_keys(alloc, named) {
        Ok((keys, rest)) => if ends_elem(rest) {
            Ok((Elem { name, keys }, rest))
        } else {
            drop(name);
            drop(keys);
            Err(PathFault::BadPath)
        },
        Err(fault) => {
            drop(name);
            Err(fault)
        }
    }
}

fn is_root(text: &[u8]) -> bool
    ensures { IsTrue result ↔ (text.now ≡ 47 ∷ []) }
{
    text == b"/".as_slice()
}

/// The path that the octets are the text of.
pub fn read_path_text(alloc: Global, text: &[u8]) -> Result<Path, PathFault>
    ensures ok { IfOk result (λ path. IsPathText text.now path) }
    // It is no other path's.
    ensures only { IfOk result (λ path. (other : List PathElem) → IsPathText text.now other →
        other ≡ path) }
    ensures bad { IsErrOf result PathFault.BadPath →
        (path : List PathElem) → IsPathText text.now path → ⊥ }
{
    if is_root(text) {
        return Ok(Seq::empty(alloc));
    }
    let mut path = Seq::empty(alloc);
    match put_elems(alloc, text, &mut path) {
        Ok(()) => Ok(path),
        Err(fault) => {
            drop(path);
            Err(fault)
        }
    }
}

/// Adds the elements of the path that the octets are the text of, which isn't the root.
fn put_elems(alloc: Global, text: &[u8], path: &mut Path) -> Result<(), PathFault>
    requires empty { path.old ≡ [] }
    requires below { text.now ≡ 47 ∷ [] → ⊥ }
    ensures ok { OnOk result (IsPathText text.now path.new) }
    ensures bad { IsErrOf result PathFault.BadPath →
        (other : List PathElem) → IsPathText text.now other → ⊥ }
{
    if after(text, b'/').is_none() {
        return Err(PathFault::BadPath);
    }
    let mut rest = text;
    while !rest.is_empty() {
        let (elem, others) = read_elem(alloc, rest)?;
        path.push(elem)?;
        rest = others;
    }
    Ok(())
}
