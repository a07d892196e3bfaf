//! Tests of texts and of Set requests: paths, values, schemas and the texts of schemas, and JSON at the nodes of a schema, both ways.
//!
//! Start at paths.rt and schema_texts.rt for texts, at json_reading.rt for JSON, and at asked.rt for what a Set request asks.
#![tactic(auto)]

#[cfg(test)]
mod actions;
#[cfg(test)]
mod asked;
#[cfg(test)]
mod builders;
#[cfg(test)]
mod json_reading;
#[cfg(test)]
mod json_writing;
#[cfg(test)]
mod node_paths;
#[cfg(test)]
mod operations;
#[cfg(test)]
mod paths;
#[cfg(test)]
mod scalars;
#[cfg(test)]
mod schema_texts;
#[cfg(test)]
mod schemas;
#[cfg(test)]
mod values;
