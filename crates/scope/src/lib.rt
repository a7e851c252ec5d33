#![tactic(auto)]
// Scopes: what every name of a program reaches, in each language.
mod by_root;
mod cards;
mod flats;
pub mod language;
mod scopes;
mod trees;
pub mod walk;
