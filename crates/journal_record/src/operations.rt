// Reading rows and operations.
ghost use Rattle.std.specs.Prelude.{◌≡◌};
ghost use Rattle.base_kinds.specs.Legal.{has_fit_rows, is_empty};
ghost use Rattle.journal_record.specs.inner.Reading.{AnswersPart, act_at, rows_at, op_parts_at, ops_at};

use crate::fault::RecordFault;
use crate::part::{Part, four_in, many};
use crate::paths::path_at;
use crate::values::value_at;
use base_kinds::{Act, Op, Ops, Row, Rows, rises};
use std::alloc::Global;

impl Part for Row {
    ghost use Rattle.journal_record.specs.inner.Reading.{row_at};

    ghost at = { row_at };

    #[tactic(auto, unfolding(crate::specs::inner::Reading::row_at))]
    fn read(alloc: Global, octets: &[u8]) -> Result<(Row, &[u8]), RecordFault> {
        let (path, rest) = path_at(alloc, octets)?;
        match value_at(alloc, rest) {
            Ok((value, rest)) => Ok((Row { path, value }, rest)),
            Err(fault) => {
                drop(path);
                Err(fault)
            }
        }
    }
}

#[tactic(auto, unfolding(crate::specs::inner::Reading::rows_at))]
fn rows_at(alloc: Global, octets: &[u8]) -> Result<(Rows, &[u8]), RecordFault>
    ensures { AnswersPart (λ x. (x.0, x.1.now)) result (rows_at octets.now) }
{
    let (count, rest) = four_in(octets)?;
    let (rows, rest) = many(alloc, count as usize, rest)?;
    if !rises(rows.items()) {
        drop(rows);
        return Err(RecordFault::NoRecord);
    }
    Ok((rows, rest))
}

fn act_at(octets: &[u8]) -> Result<(Act, &[u8]), RecordFault>
    ensures { AnswersPart (λ x. (x.0, x.1.now)) result (act_at octets.now) }
{
    match octets {
        [1, rest @ ..] => Ok((Act::Delete, rest)),
        [2, rest @ ..] => Ok((Act::Replace, rest)),
        [3, rest @ ..] => Ok((Act::Update, rest)),
        _ => Err(RecordFault::NoRecord),
    }
}

/// A delete has no rows.
fn has_fit_rows(act: Act, rows: &[Row]) -> bool
    ensures { result ≡ has_fit_rows act rows.now }
{
    match act {
        Act::Delete => rows.is_empty(),
        Act::Replace | Act::Update => true,
    }
}

#[tactic(auto, unfolding(crate::specs::inner::Reading::op_parts_at))]
fn op_parts_at(alloc: Global, octets: &[u8]) -> Result<(Op, &[u8]), RecordFault>
    ensures { AnswersPart (λ x. (x.0, x.1.now)) result (op_parts_at octets.now) }
{
    let (act, rest) = act_at(octets)?;
    let (path, rest) = path_at(alloc, rest)?;
    match rows_at(alloc, rest) {
        Ok((rows, rest)) => Ok((Op { act, path, rows }, rest)),
        Err(fault) => {
            drop(path);
            Err(fault)
        }
    }
}

impl Part for Op {
    ghost use Rattle.journal_record.specs.inner.Reading.{op_at};

    ghost at = { op_at };

    #[tactic(auto, unfolding(crate::specs::inner::Reading::op_at))]
    fn read(alloc: Global, octets: &[u8]) -> Result<(Op, &[u8]), RecordFault> {
        let (op, rest) = op_parts_at(alloc, octets)?;
        if !has_fit_rows(op.act, op.rows.items()) {
            drop(op);
            return Err(RecordFault::NoRecord);
        }
        Ok((op, rest))
    }
}

#[tactic(auto, unfolding(crate::specs::inner::Reading::ops_at))]
pub(crate) fn ops_at(alloc: Global, octets: &[u8]) -> Result<(Ops, &[u8]), RecordFault>
    ensures { AnswersPart (λ x. (x.0, x.1.now)) result (ops_at octets.now) }
{
    let (count, rest) = four_in(octets)?;
    many(alloc, count as usize, rest)
}
