//! Octets that the program makes itself are read, in rounds: a checksum is made of what was read.
use crate::fault::Fault;
use crate::{blocks, fields, frames, grpc_messages, huffman, receiving};
use std::alloc::Global;
use std::io;

#[derive(Clone, Copy)]
pub enum Codec {
    Frames,
    Huffman,
    Fields,
    Blocks,
    Messages,
    SingleOctets,
    SmallFrames,
    DataFrames,
}

pub const CODECS: &[Codec] = &[
    Codec::Frames,
    Codec::Huffman,
    Codec::Fields,
    Codec::Blocks,
    Codec::Messages,
    Codec::SingleOctets,
    Codec::SmallFrames,
    Codec::DataFrames,
];

/// What a codec did in all its rounds.
#[derive(Clone, Copy)]
pub struct Report {
    pub octets: u64,
    pub checksum: u64,
}

impl Codec {
    pub fn named(name: &str) -> Option<Codec> {
        match name {
            "frames" => Some(Codec::Frames),
            "huffman" => Some(Codec::Huffman),
            "fields" => Some(Codec::Fields),
            "blocks" => Some(Codec::Blocks),
            "messages" => Some(Codec::Messages),
            "single_octets" => Some(Codec::SingleOctets),
            "small_frames" => Some(Codec::SmallFrames),
            "data_frames" => Some(Codec::DataFrames),
            _ => None,
        }
    }

    pub fn name(self) -> &'static str {
        match self {
            Codec::Frames => "frames",
            Codec::Huffman => "huffman",
            Codec::Fields => "fields",
            Codec::Blocks => "blocks",
            Codec::Messages => "messages",
            Codec::SingleOctets => "single_octets",
            Codec::SmallFrames => "small_frames",
            Codec::DataFrames => "data_frames",
        }
    }

    pub fn run(self, alloc: Global, rounds: u32) -> Result<Report, Fault> {
        match self {
            Codec::Frames => Ok(frames::run(alloc, rounds)?),
            Codec::Huffman => huffman::run(alloc, rounds),
            Codec::Fields => fields::run(alloc, rounds),
            Codec::Blocks => blocks::run(alloc, rounds),
            Codec::Messages => grpc_messages::run(alloc, rounds),
            Codec::SingleOctets => grpc_messages::run_single_octets(alloc, rounds),
            Codec::SmallFrames => receiving::run_small_frames(alloc, rounds),
            Codec::DataFrames => receiving::run_data_frames(alloc, rounds),
        }
    }
}

/// Runs a codec, and prints what it did.
pub fn print_case(alloc: Global, rt: &impl Print, codec: Codec, rounds: u32) -> io::Result<()> {
    let Report { octets, checksum } = codec.run(alloc, rounds)?;
    let name = codec.name();
    println!(rt; "{name}: {octets} octets, checksum {checksum}")
}
