#![tactic(auto)]
// Trials of the libraries at the edges of their rules: the cases are tests.
#[cfg(test)]
mod reading;
#[cfg(test)]
mod refused;
#[cfg(test)]
mod resolver;
#[cfg(test)]
mod scopes;
#[cfg(test)]
mod texts;
#[cfg(test)]
mod writing;
