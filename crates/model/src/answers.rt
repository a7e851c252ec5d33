// What a session answers.
use crate::faults::SessionFault;
use crate::kinds::Kind;
use crate::nodes::Origin;

// What is told of a node: the number is 0 where the kind has none.
#[derive(Clone, Copy, PartialEq, Eq, Debug)]
pub struct Told {
    pub kind: Kind,
    pub number: u32,
    pub origin: Option<Origin>,
    pub reach: Option<usize>,
}

// What is told of a draft that was mended: its nodes, and the rounds that it took.
#[derive(Clone, Copy, PartialEq, Eq, Debug)]
pub struct Counts {
    pub nodes: usize,
    pub rounds: usize,
}

#[derive(Clone, Copy, PartialEq, Eq, Debug)]
pub enum Answer {
    Loaded { nodes: usize },
    Ran { nodes: usize, rounds: usize },
    Is(Told),
    Written { length: usize },
    Refused(SessionFault),
}
