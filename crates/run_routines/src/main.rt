//! Runs two routines under cached Depth Isolation and prints what each shows and how it ends.
#![tactic(auto)]

mod routines;

use anyhow::anyhow;
use journal::Journal;
use machine::{Cell, Live, REGISTERS, Record};
use policies::DepthIsolation;
use refusal::Refusal;
use report::run_lines;
use routines::{DOUBLES, PRIES, Routine, cells_of};
use rulebook::{Alone, Cache};

const BUDGET: u32 = 64;

// A place for each step that the budget allows, so that no run ends for want of one.
const PLACES: usize = BUDGET as usize;

fn run(
    cells: &mut [Cell],
    registers: &mut [Cell],
    journal: &mut Journal<Record>,
) -> Result<(), Refusal> {
    let mut rules = Cache::over(Alone {
        rules: DepthIsolation,
    });
    let live = Live::start(0, 0, cells)?;
    let _ = live.run(cells, registers, &mut rules, BUDGET, journal)?;
    Ok(())
}

fn follow(rt: &HostRuntime, routine: Routine) -> anyhow::Result<()> {
    let mut cells = cells_of(routine);
    let mut registers = [Cell::BLANK; REGISTERS];
    let mut slots = [Record::BLANK; PLACES];
    let mut journal = Journal::over(&mut slots);
    run(&mut cells, &mut registers, &mut journal)?;
    if journal.count() == 0 {
        return Err(anyhow!("the routine made no step"));
    }
    rt.print(run_lines(rt.alloc(), journal.elements())?)?;
    Ok(())
}

fn main(rt: HostRuntime) -> anyhow::Result<()> {
    follow(&rt, DOUBLES)?;
    follow(&rt, PRIES)
}
