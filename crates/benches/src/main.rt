//! Runs parts of the product over what it makes itself, in rounds, so that they can be timed: codecs, replies that are sent, turns of
//! streams, messages, and answers of the desk.
//!
//! Words: a bench, a case of it, and its numbers: `codecs CODEC ROUNDS`, `sends CASE REPLIES`, `streams CASE ROWS ROUNDS`,
//! `messages CASE ROWS ROUNDS` or `desk CASE INTERFACES ROUNDS`. A bench alone: each of its cases once, over a hundred rows or
//! interfaces. Without words: each bench so.
#![tactic(auto)]

mod blocks;
mod checksum;
mod codecs;
mod counter;
mod desk;
mod draws;
mod fault;
mod fields;
mod frames;
mod grpc_messages;
mod huffman;
mod messages;
mod receiving;
mod requests;
mod rows;
mod sends;
mod streams;

use codecs::{CODECS, Codec};
use std::alloc::Global;
use std::env::{self, Args};
use std::io;

/// A bench.
#[derive(Clone, Copy)]
enum Bench {
    Codecs,
    Sends,
    Streams,
    Messages,
    Desk,
}

const BENCHES: &[Bench] = &[
    Bench::Codecs,
    Bench::Sends,
    Bench::Streams,
    Bench::Messages,
    Bench::Desk,
];

/// How many rows or interfaces a case has where no number is given.
const FEW: u32 = 100;

/// The first and the second number of a case, where they are given.
type Numbers = (Option<u32>, Option<u32>);

fn main(rt: HostRuntime) -> io::Result<()> {
    let mut words = env::args(&rt)?;
    // the program's own name
    drop(words.next());
    let Some(name) = words.next() else {
        return run_all(rt.alloc(), &rt);
    };
    match bench_named(name.as_str()) {
        Some(bench) => run(rt.alloc(), &rt, bench, &mut words),
        None => bad_words(&rt),
    }
}

fn bench_named(name: &str) -> Option<Bench> {
    match name {
        "codecs" => Some(Bench::Codecs),
        "sends" => Some(Bench::Sends),
        "streams" => Some(Bench::Streams),
        "messages" => Some(Bench::Messages),
        "desk" => Some(Bench::Desk),
        _ => None,
    }
}

fn bad_words(rt: &impl Eprint) -> io::Result<()> {
    eprintln!(rt; "usage: benches [codecs|sends|streams|messages|desk [CASE NUMBER [ROUNDS]]]")?;
    Err(io::Error::from(io::ErrorKind::InvalidInput))
}

fn run_all(alloc: Global, rt: &impl Print) -> io::Result<()> {
    for bench in BENCHES {
        run_each(alloc, rt, *bench)?;
    }
    Ok(())
}

/// Runs the case of the words that are left, or each one.
fn run(
    alloc: Global,
    rt: &(impl Print + Eprint),
    bench: Bench,
    words: &mut Args<Global>,
) -> io::Result<()> {
    let Some(case) = words.next() else {
        return run_each(alloc, rt, bench);
    };
    let first = number_in(words);
    let second = number_in(words);
    run_case(alloc, rt, bench, case.as_str(), (first, second))
}

fn number_in(words: &mut Args<Global>) -> Option<u32> {
    let word = words.next()?;
    word.parse::<u32>().ok()
}

/// Runs each case of a bench once.
fn run_each(alloc: Global, rt: &impl Print, bench: Bench) -> io::Result<()> {
    match bench {
        Bench::Codecs => {
            for codec in CODECS {
                codecs::print_case(alloc, rt, *codec, 1)?;
            }
        }
        Bench::Sends => {
            for case in sends::CASES {
                sends::print_case(alloc, rt, case, 1)?;
            }
        }
        Bench::Streams => {
            for case in streams::CASES {
                streams::print_case(alloc, rt, case, FEW, 1)?;
            }
        }
        Bench::Messages => {
            for case in messages::CASES {
                messages::print_case(alloc, rt, case, FEW, 1)?;
            }
        }
        Bench::Desk => {
            for case in requests::CASES {
                desk::print_case(alloc, rt, case, FEW, 1)?;
            }
        }
    }
    Ok(())
}

fn run_case(
    alloc: Global,
    rt: &(impl Print + Eprint),
    bench: Bench,
    name: &str,
    numbers: Numbers,
) -> io::Result<()> {
    match bench {
        Bench::Codecs => match (Codec::named(name), numbers) {
            (Some(codec), (Some(rounds), None)) => codecs::print_case(alloc, rt, codec, rounds),
            _ => bad_words(rt),
        },
        Bench::Sends => match (sends::Case::named(name), numbers) {
            (Some(case), (Some(replies), None)) => sends::print_case(alloc, rt, case, replies),
            _ => bad_words(rt),
        },
        Bench::Streams => match (streams::Case::named(name), numbers) {
            (Some(case), (Some(rows), Some(rounds))) => {
                streams::print_case(alloc, rt, case, rows, rounds)
            }
            _ => bad_words(rt),
        },
        Bench::Messages => match (messages::Case::named(name), numbers) {
            (Some(case), (Some(rows), Some(rounds))) => {
                messages::print_case(alloc, rt, case, rows, rounds)
            }
            _ => bad_words(rt),
        },
        Bench::Desk => match (requests::Case::named(name), numbers) {
            (Some(case), (Some(interfaces), Some(rounds))) => {
                desk::print_case(alloc, rt, case, interfaces, rounds)
            }
            _ => bad_words(rt),
        },
    }
}
