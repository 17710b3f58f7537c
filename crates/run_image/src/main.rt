//! Reads an image, loads it and runs it under cached Depth Isolation, and prints what it shows and how it ends.
#![tactic(auto)]

mod running;

use image::{Name, cells_named};
use journal::Journal;
use machine::{Cell, REGISTERS, Record};
use policies::DepthIsolation;
use report::{refused_line, run_lines};
use rulebook::{Alone, Cache};
use running::{BUDGET, LONGEST, NAMES, run_image};
use std::io::Read;

// One byte more than an image may have, so that a longer input shows.
fn read_input(rt: &HostRuntime) -> anyhow::Result<Vec<u8>> {
    let mut input = Vec::new(rt.alloc());
    let _ = rt.stdin().take(LONGEST as u64 + 1).read_to_end(&mut input)?;
    Ok(input)
}

fn follow(rt: &HostRuntime) -> anyhow::Result<()> {
    let heap = rt.alloc();
    let input = read_input(rt)?;
    let mut cells = vec![in heap; Cell::BLANK; cells_named(input.as_slice())]?;
    let mut registers = [Cell::BLANK; REGISTERS];
    let mut name_slots = [Name::BLANK; NAMES];
    let mut record_slots = vec![in heap; Record::BLANK; BUDGET as usize]?;
    let mut names = Journal::over(&mut name_slots);
    let mut journal = Journal::over(record_slots.as_mut_slice());
    let mut rules = Cache::over(Alone {
        rules: DepthIsolation,
    });
    match run_image(
        input.as_slice(),
        cells.as_mut_slice(),
        &mut registers,
        &mut names,
        &mut rules,
        &mut journal,
    ) {
        Ok(_) => rt.print(run_lines(heap, journal.elements())?)?,
        Err(fault) => rt.println(refused_line(heap, fault)?)?,
    }
    Ok(())
}

fn main(rt: HostRuntime) -> anyhow::Result<()> {
    follow(&rt)
}
