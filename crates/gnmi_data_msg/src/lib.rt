//! The paths and values of gnmi.proto, Path and TypedValue: read exactly, and written in one form; and what the requests of
//! gNMI's calls have in common.
//!
//! Start at `read_path` and `read_typed`, and at what they are read as: specs/Paths.antt and specs/TypedValues.antt. What is
//! written is specs/Writing.antt. The numbers of all fields stand in one table, specs/Numbers.antt (src/numbers.rt); what
//! every message crate needs of fields, texts and repeated messages is specs/Parts.antt (src/parts.rt). Of requests: which
//! paths this target doesn't support (specs/Profile.antt), single messages, numbers and enums (specs/Singles.antt),
//! encodings (specs/Encodings.antt) and models (specs/Models.antt).
#![tactic(auto)]

mod encodings;
mod fault;
mod laws;
mod models;
mod numbers;
mod parts;
mod path_reading;
mod path_writing;
mod paths;
mod singles;
mod typed_reading;
mod typed_writing;

pub use encodings::{ENCODING_JSON, ENCODING_JSON_IETF, ENCODING_PROTO, encoding_of};
pub use fault::MsgFault;
pub use laws::{paths_read_back, values_read_back};
pub use models::{MODEL_NAME, ModelData};
pub use parts::{Message, are_texts, fields_in, messages_in, single_text, text_of};
pub use path_reading::read_path;
pub use path_writing::{Written, put_message, put_messages, put_text, write_path};
pub use paths::{are_foreign, is_foreign, paths_of};
pub use singles::{count_under, enum_under, flag_under, or_empty, single_message};
pub use typed_reading::read_typed;
pub use typed_writing::{put_number, value_message};
