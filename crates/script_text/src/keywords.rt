// The keywords of lines.
ghost use Rattle.script_text.specs.Words.{IsKeyword};

use crate::line::LineFault;
use crate::words::Word;
use plain_texts::is_word;
use std::alloc::Global;

/// The first word of a line.
#[derive(Clone, Copy)]
pub(crate) enum Keyword {
    At,
    Delete,
    Replace,
    Update,
    Set,
    Trial,
    Confirm,
    Cancel,
    Extend,
    Get,
    Sub,
    Open,
    Turn,
    Poll,
    End,
    Stop,
    Fail,
}

impl Word for Keyword {
    type Value = Keyword;

    ghost spells = { IsKeyword };

    fn read(_alloc: Global, octets: &[u8]) -> Result<Keyword, LineFault> {
        if is_word(octets, b"at") {
            return Ok(Keyword::At);
        }
        if is_word(octets, b"delete") {
            return Ok(Keyword::Delete);
        }
        if is_word(octets, b"replace") {
            return Ok(Keyword::Replace);
        }
        if is_word(octets, b"update") {
            return Ok(Keyword::Update);
        }
        if is_word(octets, b"set") {
            return Ok(Keyword::Set);
        }
        if is_word(octets, b"trial") {
            return Ok(Keyword::Trial);
        }
        if is_word(octets, b"confirm") {
            return Ok(Keyword::Confirm);
        }
        if is_word(octets, b"cancel") {
            return Ok(Keyword::Cancel);
        }
        if is_word(octets, b"extend") {
            return Ok(Keyword::Extend);
        }
        if is_word(octets, b"get") {
            return Ok(Keyword::Get);
        }
        if is_word(octets, b"sub") {
            return Ok(Keyword::Sub);
        }
        if is_word(octets, b"open") {
            return Ok(Keyword::Open);
        }
        if is_word(octets, b"turn") {
            return Ok(Keyword::Turn);
        }
        if is_word(octets, b"poll") {
            return Ok(Keyword::Poll);
        }
        if is_word(octets, b"end") {
            return Ok(Keyword::End);
        }
        if is_word(octets, b"stop") {
            return Ok(Keyword::Stop);
        }
        if is_word(octets, b"fail") {
            return Ok(Keyword::Fail);
        }
        Err(LineFault::NoLine)
    }
}
