#![tactic(auto)]
// The repair of a draft.
mod marks;
mod rounds;
