// Scripts read from files.
use crate::{lines, refusals};
use model::grammar::ByRoot;
use model::nodes::Entry;
use script::reader::{MOST_NODES, read};

// Reads the script in a file, and goes on with its text and its program, or prints the refusal.
pub fn with_script<F>(rt: &HostRuntime, file: &str, go_on: F) -> anyhow::Result<()>
where
    F: FnOnce(&[u8], &[Entry]) -> anyhow::Result<()>,
    requires { F.IsAlwaysCallable go_on }
{
    let text = lines::read_file(rt, file)?;
    let mut row = vec![in rt.alloc(); Entry::UNUSED; MOST_NODES]?;
    match read::<ByRoot>(&text, &mut row) {
        Ok(count) => go_on(&text, &row[..count]),
        Err(fault) => refusals::print(rt, "load", &text, fault.into()),
    }
}
