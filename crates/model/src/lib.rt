#![tactic(auto)]
// The plain data of name-fix for card scripts, and in specs/ what the rules say of it.
pub mod answers;
pub mod classes;
pub mod faults;
pub mod grammar;
pub mod kinds;
pub mod nodes;

ghost use Rattle.model.specs.Worked.{Worked};

// The worked scripts come out as the rules say.
pub fn worked_scripts()
    ensures { Worked }
{}
