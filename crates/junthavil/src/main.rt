//! A session on text lines, from standard input or from a file: one command a line, each answered in fixed words.

#![tactic(auto)]

mod answers;
mod command;
mod faults;
mod lines;
mod planning;
mod turns;

use answers::help;
use std::env;
use std::fs::File;
use std::io::BufReader;
use turns::answer_all;

fn run(rt: &HostRuntime) -> anyhow::Result<()> {
    let mut args = env::args(rt)?;
    let _program = args.next();
    let Some(name) = args.next() else {
        return answer_all(rt, BufReader::new(rt.alloc(), rt.stdin())?);
    };
    if name.as_str() == "--help" {
        rt.print(help())?;
        return Ok(());
    }
    answer_all(
        rt,
        BufReader::new(rt.alloc(), File::open(rt, name.as_str())?)?,
    )
}

fn main(rt: HostRuntime) -> anyhow::Result<()> {
    run(&rt)
}
