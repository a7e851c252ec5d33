// The swell card, read and written back.
use crate::refusals;
use model::grammar::ByRoot;
use model::nodes::Entry;
use script::reader::{MOST_NODES, read};
use script::writer::write;

const CARD: &str = "card\t4
def\tlo
byte\t0
def\thi
byte\t1
field\tswell\t0
out
ref\tswell
";

pub fn run(rt: &HostRuntime) -> anyhow::Result<()> {
    let text = CARD.as_bytes();
    print!(rt; "The swell card, one node a line:\n\n{CARD}\n")?;
    let mut row = vec![in rt.alloc(); Entry::UNUSED; MOST_NODES]?;
    let mut buffer = [0u8; 256];
    let count = match read::<ByRoot>(text, &mut row) {
        Ok(count) => count,
        Err(fault) => return refusals::print(rt, "load", text, fault.into()),
    };
    println!(rt; "Read: {count} nodes.")?;
    match write(&row[..count], &mut buffer) {
        Ok(length) => {
            let same = if &buffer[..length] == text {
                "the same text"
            } else {
                "another text"
            };
            println!(rt; "Written back: {length} bytes, {same}.")?;
        }
        Err(fault) => return refusals::print(rt, "load", text, fault.into()),
    }
    Ok(())
}
