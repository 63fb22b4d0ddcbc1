// Reads source.hex, a record a line, and prints what it holds, or the first line that is turned down.
// What it holds then goes over each lane, and what came of it is printed.
#![tactic(auto)]

use image::{Survey, report};
use std::fs;
use transmission::Trials;

const SOURCE: &str = "source.hex";

fn run(rt: &HostRuntime) -> anyhow::Result<()> {
    let text = fs::read(rt, SOURCE)?;
    let page = report(rt.alloc(), text.as_slice())?;
    println!(rt; "{page}")?;
    if Survey::of(text.as_slice()).is_ok() {
        let trials = Trials::of(text.as_slice());
        println!(rt; "{trials}")?;
    }
    Ok(())
}

fn main(rt: HostRuntime) -> anyhow::Result<()> {
    run(&rt)
}
