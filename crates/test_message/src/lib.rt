//! Tests of gNMI's messages and of those of its calls: what real clients and another library wrote or took is read as it was meant, and
//! written again.
//!
//! The tables hold what others wrote, `cases` cases of our own.
#![tactic(auto)]

#[cfg(test)]
mod cases;
#[cfg(test)]
mod commits;
#[cfg(test)]
mod get_tables;
#[cfg(test)]
mod gets;
#[cfg(test)]
mod held;
#[cfg(test)]
mod notes;
#[cfg(test)]
mod parts;
#[cfg(test)]
mod paths;
#[cfg(test)]
mod set_tables;
#[cfg(test)]
mod sets;
#[cfg(test)]
mod sub_tables;
#[cfg(test)]
mod subs;
#[cfg(test)]
mod tables;
#[cfg(test)]
mod typed;
