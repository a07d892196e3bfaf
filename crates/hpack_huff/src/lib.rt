//! The Huffman code of HPACK (RFC 7541, section 5.2 and appendix B): texts are decoded, none is coded. Start with
//! `huff_decode` and specs/Huffman.antt, which stands on the code of each symbol in specs/Code.antt. What private
//! functions alone cite stands in specs/inner.
#![tactic(auto)]

mod decode;
mod laws;
mod pending;
mod table;

pub use decode::{HuffFault, huff_decode};
pub use laws::{codes_fill_the_tree, no_code_begins_another, one_text};
