//! Values: whether they have a shape, their order, their texts as keys and in logs, and the reading of key texts and numbers.
//!
//! Start at `check_value` (src/shapes.rt), `key_text`, `read_key` and `value_text`. Which text is the key of which value is
//! specs/KeyTexts.antt, the same as a function specs/KeyValues.antt; decimals are specs/Decimals.antt, integers
//! specs/Integers.antt. That the functions and the facts say the same are the laws of specs/laws/Texts.antt.
//! `scalar_of` (src/scalar.rt) borrows a value as one that can be compared and sorted (specs/Scalars.antt), and `all_differ`
//! (src/distinct.rt) is whether the values of a leaf-list differ (RFC 7950 7.7).
#![tactic(auto)]

mod base64_texts;
mod decimals;
mod distinct;
mod fault;
mod key_reading;
mod key_texts;
mod laws;
mod numbers;
mod quotes;
mod scalar;
mod shapes;
mod value_texts;
mod written;

pub use base64_texts::read_base64;
pub use decimals::read_decimal;
pub use distinct::{all_differ, same_scalar};
pub use fault::ValueFault;
pub use key_reading::read_key;
pub use key_texts::key_text;
pub use laws::{decimals_read_back, functions_give_what_is_spelled, one_decimal, one_value_a_key};
pub use numbers::{read_integer, with_sign, with_zeros};
pub use scalar::{Scalar, scalar_of};
pub use shapes::check_value;
pub use value_texts::value_text;
