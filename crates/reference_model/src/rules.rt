// The six rules that a valid tree meets.
pub(crate) mod data_nodes;
pub(crate) mod leafref;
pub(crate) mod list_keys;
pub(crate) mod mandatory;
pub(crate) mod max_elements;
pub(crate) mod types;
