// Says what is in a script, or what is wrong with it and where.
use crate::scripts::with_script;
use model::kinds::all_kinds;
use model::nodes::Entry;
use script::summary::count_kind;

fn print_kinds(rt: &HostRuntime, program: &[Entry]) -> anyhow::Result<()> {
    for row in all_kinds() {
        let count = count_kind(program, row.kind);
        if count > 0 {
            println!(rt; "{count:>5} {}", row.word)?;
        }
    }
    Ok(())
}

pub fn run(rt: &HostRuntime, file: &str) -> anyhow::Result<()> {
    with_script(rt, file, |_, program| {
        println!(rt; "load ok {}", program.len())?;
        print_kinds(rt, program)
    })
}
