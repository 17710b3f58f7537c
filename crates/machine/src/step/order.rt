ghost use Rattle.std.specs.Prelude.{◌≡◌, ◌<◌, cond, true, length, Ok, Err, OnErr, nat_lt};
ghost use Rattle.refusal.specs.declared.refusal.Refusal.TheVariants.{Sizes};
ghost use Rattle.machine.specs.Calls.{fitting};
ghost use Rattle.machine.specs.Effect.{Reaches, address_in};
ghost use Rattle.machine.specs.Step.{Unaltered, asks, performed, judged, within as ranged, obeyed, looked_at, fetch_question as fetching, inside as insides, step as stepping};
ghost use Rattle.machine.specs.StepCall.{StepCall};

use super::{Access, Asked, Fetched, Legal, Machine, unasked};
use crate::cell::Cell;
use crate::records::Cause;
use crate::state::{Live, Refused, State, Stepped, fits};
use refusal::Refusal;
use rulebook::{Group, Question, Rulebook, Tags};

mod run;

impl Live {
    /// One step.  It uses this machine up and gives the one after it; a refused call hands it back.
    pub fn step<R: Rulebook>(
        self,
        cells: &mut [Cell],
        registers: &mut [Cell],
        rules: &mut R,
    ) -> Result<Stepped, Refused>
        ensures steps { StepCall (R.Rulebook.meaning rules.old) self cells.old registers.old result cells.new registers.new }
        ensures spares { OnErr result (rules.new ≡ rules.old) }
        ensures keeps { Unaltered (R.Rulebook.meaning rules.old) (R.Rulebook.meaning rules.new) }
    {
        let live = self.sized(cells, registers)?;
        let mut machine = Machine {
            state: live.state,
            cells,
            registers,
            rules,
        };
        Ok(machine.step())
    }

    // The machine where cells and registers are as many as it needs, and else handed back.
    fn sized(self, cells: &[Cell], registers: &[Cell]) -> Result<Live, Refused>
        ensures { result ≡ cond (fitting self.state cells.now registers.now) (Ok self) (Err (record { refusal = Sizes; live = self })) }
    {
        if fits(self.state, cells, registers) {
            Ok(self)
        } else {
            Err(Refused {
                refusal: Refusal::Sizes,
                live: self,
            })
        }
    }
}

// The phases of a step.
impl<'m, R: Rulebook> Machine<'m, R> {
    ghost use Rattle.machine.specs.StepLaw.{StepLaw};
    ghost use Rattle.machine.specs.Work.{Works};

    // A step, with the law that it obeys.
    fn step(&mut self) -> Stepped
        ensures works { Works R.Rulebook.meaning stepping self.old result self.new }
        ensures lawful { StepLaw (R.Rulebook.meaning self.old.rules.now) self.old.state self.old.cells.now self.old.registers.now result self.new.cells.now self.new.registers.now }
    {
        self.advance()
    }

    fn advance(&mut self) -> Stepped
        ensures works { Works R.Rulebook.meaning stepping self.old result self.new }
    {
        if self.state.pc >= self.state.size {
            return self.stop(0, 0, unasked(Group::Fetch, 0), Cause::PcOutside);
        }
        self.fetch()
    }

    fn fetch(&mut self) -> Stepped
        requires inside { self.old.state.pc < self.old.state.size }
        ensures works { Works R.Rulebook.meaning (λ μ state registers. insides μ state registers true) self.old result self.new }
    {
        let State { pc, tag, .. } = self.state;
        let ci = self.cell(pc).tag;
        match self.rules.ask(fetch_question(tag, ci)) {
            Ok(tags) => self.read(ci, tags.pc),
            Err(denial) => self.stop(0, 0, unasked(Group::Fetch, ci), Cause::Denied(denial)),
        }
    }

    // What follows an allowed fetch: only now is the word looked at.
    fn read(&mut self, ci: u32, fetched_tag: u32) -> Stepped
        requires inside { self.old.state.pc < self.old.state.size }
        ensures works { Works R.Rulebook.meaning (λ μ state registers. looked_at μ state registers ci fetched_tag) self.old result self.new }
    {
        let pc = self.state.pc;
        let word = self.cell(pc).word;
        match Legal::decode(word) {
            None => self.stop(word, 0, unasked(Group::Fetch, ci), Cause::Illegal),
            Some(instruction) => {
                let fetched = Fetched {
                    ci,
                    tag: fetched_tag,
                    word,
                    instruction,
                };
                self.obey(fetched)
            }
        }
    }

    fn obey(&mut self, fetched: Fetched) -> Stepped
        ensures works { Works R.Rulebook.meaning (λ μ state registers. obeyed μ state registers fetched) self.old result self.new }
    {
        let access = self.reach(fetched.instruction);
        match access {
            Access::Nothing => {
                let asked = self.ask(fetched, access, 0);
                self.judge(asked)
            }
            Access::Load { .. } | Access::Store { .. } => self.within(fetched, access),
        }
    }

    fn within(&mut self, fetched: Fetched, access: Access) -> Stepped
        ensures works { Works R.Rulebook.meaning (λ μ state registers. ranged μ state registers fetched access (nat_lt (address_in access) state.size)) self.old result self.new }
    {
        let address = access.address();
        if address >= self.state.size {
            return self.stop(
                fetched.word,
                address,
                unasked(fetched.instruction.group(), fetched.ci),
                Cause::DataOutside,
            );
        }
        let m = self.cell(address).tag;
        let asked = self.ask(fetched, access, m);
        self.judge(asked)
    }

    // The question of an op is asked with the pc tag that the fetch left.
    fn ask(&self, fetched: Fetched, access: Access, m: u32) -> Asked
        ensures { result ≡ asks fetched self.now.registers.now access m }
    {
        let (a, b) = self.sources(fetched.instruction);
        let question = Question {
            group: fetched.instruction.group(),
            pc: fetched.tag,
            ci: fetched.ci,
            a,
            b,
            m,
        };
        Asked {
            word: fetched.word,
            instruction: fetched.instruction,
            access,
            question,
        }
    }

    fn judge(&mut self, asked: Asked) -> Stepped
        requires there { Reaches asked.access (length self.old.cells.now) }
        ensures works { Works R.Rulebook.meaning (λ μ state registers. judged μ state registers asked) self.old result self.new }
    {
        match self.rules.ask(asked.question) {
            Ok(Tags { pc, r }) => self.perform(asked, pc, r),
            Err(denial) => self.stop(
                asked.word,
                asked.access.address(),
                asked.question,
                Cause::Denied(denial),
            ),
        }
    }

    fn perform(&mut self, asked: Asked, tag: u32, r: u32) -> Stepped
        requires there { Reaches asked.access (length self.old.cells.now) }
        ensures works { Works R.Rulebook.meaning (λ _ state registers. performed state registers asked tag r asked.access) self.old result self.new }
    {
        match asked.access {
            Access::Nothing => self.finish(asked, 0, tag, r),
            Access::Load { address } => {
                let loaded = self.cell(address).word;
                self.finish(asked, loaded, tag, r)
            }
            Access::Store { address } => {
                let word = self.evaluate(asked.instruction, 0).result;
                self.cells[address as usize] = Cell { word, tag: r };
                self.finish(asked, 0, tag, r)
            }
        }
    }
}

fn fetch_question(tag: u32, ci: u32) -> Question
    ensures { result ≡ fetching tag ci }
{
    Question {
        pc: tag,
        ..unasked(Group::Fetch, ci)
    }
}
