//! Tests of lists and texts and of the codecs of the wire: what others wrote is read, and what is written is as others write it.
//!
//! Of gRPC these are messages, heads and replies.
#![tactic(auto)]

#[cfg(test)]
mod blocks;
#[cfg(test)]
mod fields;
#[cfg(test)]
mod frames;
#[cfg(test)]
mod grpc_heads;
#[cfg(test)]
mod grpc_messages;
#[cfg(test)]
mod grpc_replies;
#[cfg(test)]
mod huffman;
#[cfg(test)]
mod lists;
#[cfg(test)]
mod tables;
