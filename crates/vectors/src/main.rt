// Runs the vectors of an independent model: a case a line from standard input, an answer a line to standard output.
// docs/VECTORS.md has the words of each case and of its answer.
#![tactic(auto)]

mod frames;
mod lanes;
mod parsing;
mod records;

use anyhow::{Context, anyhow};
use slots::SlotLane;
use std::alloc::Global;
use std::io::{BufRead, BufReader};

// The answer to one case. A match on the first word shows all cases at once; a table would be one of pointers to functions.
fn answer(heap: Global, case: &str) -> anyhow::Result<String> {
    let (kind, rest) = case.split_once(' ').context("a case has one word only")?;
    match kind {
        "record-read" => records::read(heap, rest),
        "record-padded" => records::read_padded(heap, rest),
        "record-write" => records::write(heap, rest),
        "frame-decode" => frames::decode(heap, rest),
        "frame-information" => frames::encode_information(heap, rest),
        "frame-ready" => frames::encode_ready(heap, rest),
        "lane-slots" => lanes::over(heap, SlotLane::new(), rest),
        "lane-losing" => lanes::over_losing(heap, rest),
        _ => Err(anyhow!("no such case")),
    }
}

fn run(rt: &HostRuntime) -> anyhow::Result<()> {
    let heap = rt.alloc();
    for case in BufReader::new(heap, rt.stdin())?.lines(heap) {
        let case = case?;
        let answer = answer(heap, case.as_str())?;
        println!(rt; "{answer}")?;
    }
    Ok(())
}

fn main(rt: HostRuntime) -> anyhow::Result<()> {
    run(&rt)
}
