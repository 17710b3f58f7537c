ghost use Rattle.std.specs.Prelude.{◌≡◌, OnErr};
ghost use Rattle.journal.specs.Journal.{elements, room, loan};
ghost use Rattle.machine.specs.RunCall.{RunCall};
ghost use Rattle.machine.specs.Step.{Unaltered};

use crate::cell::Cell;
use crate::records::Record;
use crate::state::{End, Live, MOST_STEPS, Next, Ran, Refused, Stepped};
use crate::step::Machine;
use journal::Journal;
use refusal::Refusal;
use rulebook::Rulebook;

impl Live {
    /// Steps until the machine stops, the budget is spent or the journal is full, tried in this
    /// order before each step, and appends the record of each.
    pub fn run<R: Rulebook>(
        self,
        cells: &mut [Cell],
        registers: &mut [Cell],
        rules: &mut R,
        budget: u32,
        journal: &mut Journal<Record>,
    ) -> Result<Ran, Refused>
        ensures runs { RunCall (R.Rulebook.meaning rules.old) self cells.old registers.old budget (elements journal.old) (room journal.old) result cells.new registers.new (elements journal.new) (room journal.new) }
        ensures loan { loan journal.new ≡ loan journal.old }
        ensures spares { OnErr result (rules.new ≡ rules.old) }
        ensures keeps { Unaltered (R.Rulebook.meaning rules.old) (R.Rulebook.meaning rules.new) }
    {
        let live = self.sized(cells, registers)?;
        if !(1..=MOST_STEPS).contains(&budget) {
            return Err(Refused {
                refusal: Refusal::Budget,
                live,
            });
        }
        let mut machine = Machine {
            state: live.state,
            cells,
            registers,
            rules,
        };
        let before = journal.count();
        let end = machine.run(budget, journal);
        Ok(Ran {
            end,
            added: journal.count() - before,
        })
    }
}

// The turns of a run.
impl<'m, R: Rulebook> Machine<'m, R> {
    ghost use Rattle.machine.specs.Work.{RunsOn, Stays, Turns};

    fn run(&mut self, budget: u32, journal: &mut Journal<Record>) -> End
        ensures runs { RunsOn R.Rulebook.meaning budget self.old journal.old result self.new journal.new }
        ensures stays { Stays R.Rulebook.meaning self.old self.new }
        ensures loan { loan journal.new ≡ loan journal.old }
    {
        for _made in 0..budget {
            let Some(next) = self.turn(journal) else {
                return End::Full(Live { state: self.state });
            };
            match next {
                Next::Running(live) => self.state = live.state,
                Next::Ended(stopped) => return End::Stopped(stopped),
            }
        }
        End::Spent(Live { state: self.state })
    }

    // One step and its record, or nothing where the journal has no place for it.
    fn turn(&mut self, journal: &mut Journal<Record>) -> Option<Next>
        ensures turns { Turns R.Rulebook.meaning self.old journal.old result self.new journal.new }
        ensures stays { Stays R.Rulebook.meaning self.old self.new }
        ensures loan { loan journal.new ≡ loan journal.old }
    {
        if journal.is_full() {
            return None;
        }
        let Stepped { entry, next } = self.advance();
        let _ = journal.append(entry);
        Some(next)
    }
}
