#![tactic(auto)]
// The program: takes its arguments apart, and prints what the libraries decide.
mod bench;
mod check;
mod lines;
mod names;
mod refusals;
mod scripts;
mod swell;

use anyhow::anyhow;
use std::env;
use std::process::ExitCode;

const USAGE: &str = "usage:
  namefix                        read the swell card and write it back
  namefix check FILE             what is in a script, or what is wrong with it and where
  namefix names FILE             which declaration each name of a script reaches
  namefix benchload FILE COUNT   time COUNT readings and writings of a script, in memory";

// What the arguments ask for: matched once, and never compared or printed.
#[derive(Drop)]
enum Command {
    Swell,
    Check(String),
    Names(String),
    BenchLoad(String, u64),
}

fn parse_command(mut args: env::Args) -> anyhow::Result<Command> {
    let Some(word) = args.next() else {
        return Ok(Command::Swell);
    };
    let file = args.next();
    let count = args.next();
    if args.next().is_some() {
        return Err(anyhow!("too many arguments"));
    }
    match (word.as_str(), file, count) {
        ("check", Some(file), None) => Ok(Command::Check(file)),
        ("names", Some(file), None) => Ok(Command::Names(file)),
        ("benchload", Some(file), Some(count)) => Ok(Command::BenchLoad(
            file,
            count.parse::<u64>()?,
        )),
        ("check", _, _) => Err(anyhow!("check takes one file")),
        ("names", _, _) => Err(anyhow!("names takes one file")),
        ("benchload", _, _) => Err(anyhow!("benchload takes a file and a count")),
        _ => Err(anyhow!("there is no such command")),
    }
}

fn run(rt: &HostRuntime) -> anyhow::Result<()> {
    let mut args = env::args(rt)?;
    let _own_name = args.next();
    match parse_command(args)? {
        Command::Swell => swell::run(rt),
        Command::Check(file) => check::run(rt, file.as_str()),
        Command::Names(file) => names::run(rt, file.as_str()),
        Command::BenchLoad(file, count) => bench::load(rt, file.as_str(), count),
    }
}

fn main(rt: HostRuntime) -> anyhow::Result<ExitCode> {
    match run(&rt) {
        Ok(()) => Ok(ExitCode::SUCCESS),
        Err(error) => {
            eprintln!(rt; "namefix: {error}\n{USAGE}")?;
            Ok(ExitCode::FAILURE)
        }
    }
}
