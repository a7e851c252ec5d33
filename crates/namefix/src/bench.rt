// Times what the libraries do, in memory.
use crate::{lines, refusals};
use model::faults::TextFault;
use model::grammar::ByRoot;
use model::nodes::Entry;
use script::reader::{LONGEST_TEXT, MOST_NODES, read};
use script::writer::write;
use std::time::Instant;

// A text, and room for its program and for what is written of it.
#[derive(Drop)]
struct Desk {
    text: Vec<u8>,
    row: Vec<Entry>,
    buffer: Vec<u8>,
}

impl Desk {
    // Reads and writes the text once.
    fn read_and_write(&mut self) -> Result<usize, TextFault> {
        let count = read::<ByRoot>(&self.text, &mut self.row)?;
        write(&self.row[..count], &mut self.buffer)?;
        Ok(count)
    }

    // So many times, and how many nodes the last time had.
    fn repeat(&mut self, count: u64) -> Result<usize, TextFault> {
        let mut nodes = 0;
        for _turn in 0..count {
            nodes = self.read_and_write()?;
        }
        Ok(nodes)
    }
}

pub fn load(rt: &HostRuntime, file: &str, count: u64) -> anyhow::Result<()> {
    let mut desk = Desk {
        text: lines::read_file(rt, file)?,
        row: vec![in rt.alloc(); Entry::UNUSED; MOST_NODES]?,
        buffer: vec![in rt.alloc(); 0u8; LONGEST_TEXT]?,
    };
    let start = Instant::now(rt)?;
    let result = desk.repeat(count);
    let spent = start.elapsed(rt)?.as_nanos();
    match result {
        Ok(nodes) => println!(rt; "bench {count} runs {nodes} nodes {spent} ns")?,
        Err(fault) => return refusals::print(rt, "load", &desk.text, fault.into()),
    }
    Ok(())
}
