//! Reads questions, one a line, puts each to cached Depth Isolation and prints the answers.
#![tactic(auto)]

use policies::DepthIsolation;
use rulebook::{Alone, Cache};
use std::io::{BufRead, BufReader};
use transcript::{answer_line, ask_line};

fn run(rt: &HostRuntime) -> anyhow::Result<()> {
    let heap = rt.alloc();
    let mut rules = Cache::over(Alone {
        rules: DepthIsolation,
    });
    // Counted by hand: `enumerate` asks for a proof that the input has fewer than 2^64 lines.
    let mut number: u64 = 0;
    let mut answered: u64 = 0;
    for line in BufReader::new(heap, rt.stdin())?.split(heap, b'\n') {
        let line = line?;
        number = number.saturating_add(1);
        match ask_line(&mut rules, line.as_slice()) {
            Some(answer) => {
                answered = answered.saturating_add(1);
                rt.println(answer_line(heap, answer)?)?;
            }
            None => println!(rt; "bad line {number}")?,
        }
    }
    let remembered = rules.count();
    println!(rt; "answered {answered}")?;
    println!(rt; "remembered {remembered}")?;
    Ok(())
}

fn main(rt: HostRuntime) -> anyhow::Result<()> {
    run(&rt)
}
