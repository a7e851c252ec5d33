#![tactic(auto)]

mod fields;
mod lines;
mod pending;
mod pieces;
pub mod reader;
mod sink;
pub mod summary;
pub mod writer;
