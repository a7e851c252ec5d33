// Refusals in words.
use crate::lines::Shown;
use model::faults::{Layer, MendFault, ReadFault, RepairFault, TextFault};
use script::reader::MOST_NODES;
use script::summary::line;
use std::fmt;

// What is printed of a refusal, with the line of the text that it speaks of, if there is one.
#[derive(Drop)]
pub struct Refusal {
    number: u8,
    place: usize,
    layer: Layer,
    words: Words,
}

// The reason, and the line.
#[derive(Drop)]
struct Words {
    line: Option<usize>,
    reason: &'static str,
}

impl Words {
    fn of_text(reason: &'static str) -> Words {
        Words { line: None, reason }
    }

    fn of_line(line: usize, reason: &'static str) -> Words {
        Words {
            line: Some(line),
            reason,
        }
    }
}

impl From<ReadFault> for Words {
    fn from(fault: ReadFault) -> Words {
        match fault {
            ReadFault::TooLong => Words::of_text("the text has more than 32,768 bytes"),
            ReadFault::WrongLine(line) => Words::of_line(
                line,
                "unknown word, a wrong, missing or extra field, or no line end",
            ),
            ReadFault::Misplaced(line) => {
                Words::of_line(line, "no node of this kind may stand here")
            }
            ReadFault::AfterEnd(line) => Words::of_line(line, "the tree is full before this line"),
            ReadFault::EndsEarly(_) => Words::of_text("the text ends before the tree is full"),
            ReadFault::TooManyNodes => {
                Words::of_line(MOST_NODES, "a program has at most 1,024 nodes")
            }
        }
    }
}

// A draft's node is its line. No command mends a draft yet.
impl From<RepairFault> for Words {
    fn from(fault: RepairFault) -> Words {
        match fault {
            RepairFault::FromNoName(node) => Words::of_line(
                node,
                "it is copied from a node that is not there or has no name",
            ),
            RepairFault::SpelledApart(node) => Words::of_line(
                node,
                "it is not spelled as the lowest name that it belongs with, or as the free name that it is copied from",
            ),
            RepairFault::OuterDeclared(node) => {
                Words::of_line(node, "a name of the outside world may not be declared")
            }
            RepairFault::Lost(node) => Words::of_line(
                node,
                "no declaration that it belongs with is in sight, however it is spelled",
            ),
        }
    }
}

const TOO_SHORT: &str = "there is too little room";

// Two short conversions: a trait of both faults would be longer.
impl From<TextFault> for Refusal {
    fn from(fault: TextFault) -> Refusal {
        Refusal {
            number: fault.number(),
            place: fault.place(),
            layer: fault.layer(),
            words: match fault {
                TextFault::TooShort(_) => Words::of_text(TOO_SHORT),
                TextFault::Read(found) => found.into(),
            },
        }
    }
}

impl From<MendFault> for Refusal {
    fn from(fault: MendFault) -> Refusal {
        Refusal {
            number: fault.number(),
            place: fault.place(),
            layer: fault.layer(),
            words: match fault {
                MendFault::TooShort => Words::of_text(TOO_SHORT),
                MendFault::Repair(found) => found.into(),
            },
        }
    }
}

impl fmt::Display for Refusal {
    fn fmt<W: fmt::Write>(&self, f: &mut fmt::Formatter<W>) -> fmt::Result {
        let layer = match self.layer {
            Layer::Reading => "read",
            Layer::Staging => "stage",
            Layer::Repairing => "repair",
            Layer::Session => "session",
        };
        write!(f, "refused {} at {} {layer}", self.number, self.place)
    }
}

// The refusal of a call; then the line of the text that it speaks of, and the reason.
pub fn print(rt: &HostRuntime, call: &str, text: &[u8], refusal: Refusal) -> anyhow::Result<()> {
    println!(rt; "{call} {refusal}")?;
    let Words {
        line: spoken_of,
        reason,
    } = refusal.words;
    if let Some(at) = spoken_of {
        let there = Shown {
            bytes: line(text, at),
            tab: "\t",
        };
        println!(rt; "line {at}: {there}")?;
    }
    println!(rt; "{reason}")?;
    Ok(())
}
