// The first word of what is left of a line, and what follows the space behind it.
ghost use Rattle.std.specs.Prelude.{IfSome, IfNone, IfOk, IsErrOf, IsTrue, List, ℕ};
ghost use Rattle.plain_texts.specs.Splits.{lacks};
ghost use Rattle.script_text.specs.Grammar.{IsFront};
ghost use Rattle.script_text.specs.inner.FirstWords.{IsFirstWord, IsWordKind};

use crate::keywords::Keyword;
use crate::line::LineFault;
use crate::words::{Author, CallMode, Id, Name, Number, PathText, SendMode, Word};
use plain_texts::cut_before;
use std::alloc::Global;

/// A kind of word that a space may follow.
pub(crate) trait SpacedWord: Word {
    /// Such a word says one thing at most, and has no space in it.
    fn has_no_space()
        ensures { IsWordKind Self.spells };
}

impl SpacedWord for Keyword {
    fn has_no_space() {}
}

impl SpacedWord for Number {
    fn has_no_space() {}
}

impl SpacedWord for Author {
    fn has_no_space() {}
}

impl SpacedWord for Id {
    fn has_no_space() {}
}

impl SpacedWord for Name {
    fn has_no_space() {}
}

impl SpacedWord for PathText {
    fn has_no_space() {}
}

impl SpacedWord for SendMode {
    fn has_no_space() {}
}

impl SpacedWord for CallMode {
    fn has_no_space() {}
}

/// The first word, of this kind, and what follows the space behind it.
pub(crate) fn first<W: SpacedWord>(
    alloc: Global,
    octets: &[u8],
) -> Result<(W::Value, &[u8]), LineFault>
    ensures ok { IfOk result (λ read. IsFront W.spells octets.now read.0 read.1.now) }
    ensures no_line { IsErrOf result LineFault.NoLine →
        (value : W.Value) (rest : List ℕ) → IsFront W.spells octets.now value rest → ⊥ }
{
    let Some((word, rest)) = split_word(octets) else {
        return Err(LineFault::NoLine);
    };
    W::has_no_space();
    let value = W::read(alloc, word)?;
    Ok((value, rest))
}

/// What stands before the first space, and what follows that space.
fn split_word(octets: &[u8]) -> Option<(&[u8], &[u8])>
    ensures some { IfSome result (λ read. IsFirstWord octets.now read.0.now read.1.now) }
    ensures none { IfNone result (IsTrue (lacks 32 octets.now)) }
{
    let (word, spaced) = cut_before(octets, b' ');
    let (_, rest) = spaced.split_first()?;
    Some((word, rest))
}
