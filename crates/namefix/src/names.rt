// Says of each name of a script which declaration it reaches.
use crate::lines::{Shown, Spelling};
use crate::scripts::with_script;
use model::grammar::ByRoot;
use model::nodes::Entry;
use scope::language::Language;
use script::reader::MOST_NODES;
use script::summary::line;

// A line for a name: its node, kind and spelling, and the line of the declaration that it reaches.
fn print_name(
    rt: &HostRuntime,
    text: &[u8],
    at: usize,
    entry: &Entry,
    reach: Option<usize>,
) -> anyhow::Result<()> {
    let word = entry.node.kind.row().word;
    let name = format!(in rt.alloc(); "{}", Spelling(&entry.node.name))?;
    print!(rt; "{at:>4}  {word:<5}  {name:<14}  ")?;
    match reach {
        Some(declaration) => {
            let there = Shown {
                bytes: line(text, declaration),
                tab: " ",
            };
            println!(rt; "-> {declaration:<4}  {there}")?;
        }
        None => println!(rt; "free")?,
    }
    Ok(())
}

fn print_names(rt: &HostRuntime, text: &[u8], program: &[Entry]) -> anyhow::Result<()> {
    let mut reached = vec![in rt.alloc(); None; MOST_NODES]?;
    ByRoot::find_all(program, &mut reached);
    for ((at, entry), reach) in program.iter().enumerate().zip(reached.iter()) {
        if entry.node.kind.row().role.has_name() {
            print_name(rt, text, at, entry, *reach)?;
        }
    }
    Ok(())
}

pub fn run(rt: &HostRuntime, file: &str) -> anyhow::Result<()> {
    with_script(rt, file, |text, program| print_names(rt, text, program))
}
