// The words of a line: what each kind says.
ghost use Rattle.std.specs.Prelude.{IfOk, IsErrOf, List, ℕ};
ghost use Rattle.path_core.specs.PathText.{IsPathText, IsValueText};
ghost use Rattle.script_text.specs.Words.{IsNumber, IsAuthor, IsName, IsSpan, IsSubMode, IsListMode, IsFlag, IsFill};

use crate::line::LineFault;
use base_kinds::{Fill, ListMode, Path, Span, SubMode, Text};
use path_core::{PathFault, read_path_text, read_value_text};
use plain_texts::{is_word, name_text, natural_of};
use std::alloc::Global;

/// A kind of word.
pub(crate) trait Word {
    /// What such a word says.
    type Value: Drop;

    ghost spells: { List ℕ → Self.Value → Type 0 };

    fn read(alloc: Global, octets: &[u8]) -> Result<Self::Value, LineFault>
        ensures ok { IfOk result (λ value. spells octets.now value) }
        ensures no_line { IsErrOf result LineFault.NoLine → (value : Self.Value) →
            spells octets.now value → ⊥ };
}

/// A number of 64 bits.
pub(crate) struct Number;

impl Word for Number {
    type Value = u64;

    ghost spells = { IsNumber };

    fn read(_alloc: Global, octets: &[u8]) -> Result<u64, LineFault> {
        match natural_of(octets) {
            Some(number) => Ok(number),
            None => Err(LineFault::NoLine),
        }
    }
}

/// The author of a request.
pub(crate) struct Author;

impl Word for Author {
    type Value = u32;

    ghost spells = { IsAuthor };

    #[tactic(auto, using(crate::proofs::OneMeanings::no_author))]
    fn read(alloc: Global, octets: &[u8]) -> Result<u32, LineFault> {
        let number = Number::read(alloc, octets)?;
        if number == 0 || number > 4_294_967_295 {
            return Err(LineFault::NoLine);
        }
        Ok(number as u32)
    }
}

/// The id of a trial.
pub(crate) struct Id;

impl Word for Id {
    type Value = Text;

    ghost spells = { IsValueText };

    fn read(alloc: Global, octets: &[u8]) -> Result<Text, LineFault> {
        match read_value_text(alloc, octets) {
            Ok(id) => Ok(id),
            Err(PathFault::BadPath) => Err(LineFault::NoLine),
            Err(PathFault::NoMemory) => Err(LineFault::NoMemory),
        }
    }
}

/// A path.
pub(crate) struct PathText;

impl Word for PathText {
    type Value = Path;

    ghost spells = { IsPathText };

    fn read(alloc: Global, octets: &[u8]) -> Result<Path, LineFault> {
        match read_path_text(alloc, octets) {
            Ok(path) => Ok(path),
            Err(PathFault::BadPath) => Err(LineFault::NoLine),
            Err(PathFault::NoMemory) => Err(LineFault::NoMemory),
        }
    }
}

/// The name of a call.
pub(crate) struct Name;

impl Word for Name {
    type Value = Text;

    ghost spells = { IsName };

    fn read(alloc: Global, octets: &[u8]) -> Result<Text, LineFault> {
        match name_text(alloc, octets)? {
            Some(name) => Ok(name),
            None => Err(LineFault::NoLine),
        }
    }
}

/// A duration.
pub(crate) struct Seconds;

impl Word for Seconds {
    type Value = Span;

    ghost spells = { IsSpan };

    fn read(alloc: Global, octets: &[u8]) -> Result<Span, LineFault> {
        if is_word(octets, b"-") {
            return Ok(Span::Absent);
        }
        let number = Number::read(alloc, octets)?;
        let seconds = number.min(9_223_372_036_854_775_807) as i64;
        Ok(Span::Of(seconds, 0))
    }
}

/// When a subscription sends.
pub(crate) struct SendMode;

impl Word for SendMode {
    type Value = SubMode;

    ghost spells = { IsSubMode };

    fn read(_alloc: Global, octets: &[u8]) -> Result<SubMode, LineFault> {
        if is_word(octets, b"change") {
            return Ok(SubMode::Change);
        }
        if is_word(octets, b"sample") {
            return Ok(SubMode::Sample);
        }
        Err(LineFault::NoLine)
    }
}

/// The mode of a call.
pub(crate) struct CallMode;

impl Word for CallMode {
    type Value = ListMode;

    ghost spells = { IsListMode };

    fn read(_alloc: Global, octets: &[u8]) -> Result<ListMode, LineFault> {
        if is_word(octets, b"stream") {
            return Ok(ListMode::Stream);
        }
        if is_word(octets, b"once") {
            return Ok(ListMode::Once);
        }
        if is_word(octets, b"poll") {
            return Ok(ListMode::Poll);
        }
        Err(LineFault::NoLine)
    }
}

/// 0 or 1.
pub(crate) struct Flag;

impl Word for Flag {
    type Value = bool;

    ghost spells = { IsFlag };

    fn read(_alloc: Global, octets: &[u8]) -> Result<bool, LineFault> {
        match octets {
            b"0" => Ok(false),
            b"1" => Ok(true),
            _ => Err(LineFault::NoLine),
        }
    }
}

/// What a stop leaves.
pub(crate) struct DiskFill;

impl Word for DiskFill {
    type Value = Fill;

    ghost spells = { IsFill };

    #[tactic(auto, using(crate::proofs::OneMeanings::no_fill))]
    fn read(alloc: Global, octets: &[u8]) -> Result<Fill, LineFault> {
        if is_word(octets, b"old") {
            return Ok(Fill::Old);
        }
        if is_word(octets, b"new") {
            return Ok(Fill::New);
        }
        let octet = Number::read(alloc, octets)?;
        if octet > 255 {
            return Err(LineFault::NoLine);
        }
        Ok(Fill::Octet(octet as u8))
    }
}
