ghost use Rattle.std.specs.Prelude.{◌≡◌, ◌+◌, ◌<◌, IfSome, if◌then◌else◌, nat_eq};
ghost use Rattle.instruction.specs.Decode.{decoded};
ghost use Rattle.instruction.specs.Instruction.{group_of};
ghost use Rattle.instruction.specs.Operation.{wrap};
ghost use Rattle.machine.specs.Calls.{Sized};
ghost use Rattle.machine.specs.Cells.{cell_in, word_in};
ghost use Rattle.machine.specs.Effect.{access_of, address_in, sources_of, target_of, effect_of};
ghost use Rattle.machine.specs.Program.{done};
ghost use Rattle.machine.specs.Step.{unasked as not_asked, recorded as told, next_by, stop_entry, cause_of, done_entry, went};

use crate::cell::Cell;
use crate::records::{Cause, Record};
use crate::state::{Live, Next, State, Stepped};
use crate::stopped::Stopped;
use instruction::Instruction;
use rulebook::{Group, Question, Rulebook};
use std::marker::Model;

mod order;

// What an instruction does to a machine at work, and the record of it.  Only the modules below see it, since it
// asks of its caller that addresses are in range.

// An instruction that was decoded: the registers that it names are there.
#[derive(Clone, Copy)]
struct Legal {
    instruction: Instruction,
}

impl Model for Legal {
    ghost use Rattle.instruction.specs.declared.instruction.Instruction.{Instruction};
    ghost use Rattle.instruction.specs.Instruction.{Fits};

    ghost Value = { Instruction };

    ghost view = { λ legal. legal.instruction };

    ghost inverse = { λ instruction. record { instruction = instruction } };

    ghost invariant = { λ legal. Fits legal.instruction };
}

impl Legal {
    fn decode(word: u32) -> Option<Legal>
        ensures { result ≡ decoded word }
    {
        let instruction = Instruction::decode(word)?;
        Some(Legal { instruction })
    }

    fn group(self) -> Group
        ensures { result ≡ group_of self }
    {
        self.instruction.group()
    }

    // The register that is written.
    fn target(self) -> Option<u8>
        ensures target { result ≡ target_of self }
        ensures there { IfSome result (λ d. d < 16) }
    {
        match self.instruction {
            Instruction::Const { d, .. }
            | Instruction::Move { d, .. }
            | Instruction::Compute { d, .. }
            | Instruction::Load { d, .. }
            | Instruction::Call { d, .. } => Some(d),
            _ => None,
        }
    }

    fn cause(self) -> Cause
        ensures { result ≡ cause_of self }
    {
        match self.instruction {
            Instruction::Halt => Cause::Halted,
            _ => Cause::Running,
        }
    }
}

// The memory cell that an instruction reaches.  No Option of an address with a kind beside it: each case is
// matched by name, and what reaches nothing has no kind.
#[derive(Clone, Copy)]
enum Access {
    Nothing,
    Load { address: u32 },
    Store { address: u32 },
}

impl Access {
    fn address(self) -> u32
        ensures { result ≡ address_in self }
    {
        match self {
            Access::Nothing => 0,
            Access::Load { address } | Access::Store { address } => address,
        }
    }
}

// What an instruction writes or shows, and where it goes on.
#[derive(Clone, Copy)]
struct Effect {
    result: u32,
    next: u32,
}

// An instruction that was fetched, with its cell's tag and the pc tag that the fetch left.
#[derive(Clone, Copy)]
struct Fetched {
    ci: u32,
    tag: u32,
    word: u32,
    instruction: Legal,
}

// An instruction whose question is to be put.
#[derive(Clone, Copy)]
struct Asked {
    word: u32,
    instruction: Legal,
    access: Access,
    question: Question,
}

// A machine at work: its numbers, and the cells, registers and rulebook that the caller has lent it.
#[derive(Drop)]
struct Machine<'m, R> {
    state: State,
    cells: &'m mut [Cell],
    registers: &'m mut [Cell],
    rules: &'m mut R,
    ghost sized: { Sized state cells.now registers.now },
}

impl<'m, R> Machine<'m, R> {
    fn register(&self, s: u8) -> Cell
        requires { s < 16 }
        ensures { result ≡ cell_in self.now.registers.now s }
    {
        self.registers[usize::from(s)]
    }

    // The cell at an address; a caller has shown that it is there, so nothing is tested.
    fn cell(&self, address: u32) -> Cell
        requires { address < self.now.state.size }
        ensures { result ≡ cell_in self.now.cells.now address }
    {
        self.cells[address as usize]
    }

    fn reach(&self, instruction: Legal) -> Access
        ensures { result ≡ access_of instruction self.now.registers.now }
    {
        match instruction.instruction {
            Instruction::Load { s, k, .. } => Access::Load {
                address: self.data_address(s, k),
            },
            Instruction::Store { s, k, .. } => Access::Store {
                address: self.data_address(s, k),
            },
            _ => Access::Nothing,
        }
    }

    fn data_address(&self, s: u8, k: u32) -> u32
        requires { s < 16 }
        ensures { result ≡ wrap (word_in self.now.registers.now s + k) }
    {
        self.register(s).word.wrapping_add(k)
    }

    // The tags a and b that the op is asked with.
    fn sources(&self, instruction: Legal) -> (u32, u32)
        ensures { result ≡ sources_of instruction self.now.registers.now }
    {
        match instruction.instruction {
            Instruction::Halt | Instruction::Const { .. } | Instruction::Call { .. } => (0, 0),
            Instruction::Compute { s, t, .. } => (self.register(s).tag, self.register(t).tag),
            Instruction::Store { d, s, .. } => (self.register(d).tag, self.register(s).tag),
            Instruction::Move { s, .. }
            | Instruction::Load { s, .. }
            | Instruction::Jump { s }
            | Instruction::Branch { s, .. }
            | Instruction::Ret { s }
            | Instruction::Out { s } => (self.register(s).tag, 0),
        }
    }

    fn evaluate(&self, instruction: Legal, loaded: u32) -> Effect
        ensures { result ≡ effect_of instruction self.now.state.pc loaded self.now.registers.now }
    {
        let pc = self.state.pc;
        let next = pc.wrapping_add(1);
        match instruction.instruction {
            Instruction::Halt => Effect {
                result: 0,
                next: pc,
            },
            Instruction::Const { k, .. } => Effect { result: k, next },
            Instruction::Compute { op, s, t, .. } => Effect {
                result: op.apply(self.register(s).word, self.register(t).word),
                next,
            },
            Instruction::Load { .. } => Effect {
                result: loaded,
                next,
            },
            Instruction::Store { d: s, .. }
            | Instruction::Move { s, .. }
            | Instruction::Out { s } => Effect {
                result: self.register(s).word,
                next,
            },
            Instruction::Jump { s } | Instruction::Ret { s } => Effect {
                result: 0,
                next: self.register(s).word,
            },
            Instruction::Branch { s, k } => Effect {
                result: 0,
                next: branch(self.register(s).word, next, k),
            },
            Instruction::Call { k, .. } => Effect {
                result: next,
                next: next.wrapping_add(k),
            },
        }
    }

    fn stop(&self, word: u32, address: u32, question: Question, cause: Cause) -> Stepped
        ensures { result ≡ told self.now.state.size (stop_entry self.now.state word address question cause) }
    {
        let State {
            pc,
            tag,
            count,
            size,
        } = self.state;
        recorded(
            size,
            Record {
                count,
                pc,
                word,
                question,
                address,
                next: pc,
                tag,
                cause,
                ..Record::BLANK
            },
        )
    }
}

impl<'m, R: Rulebook> Machine<'m, R> {
    ghost use Rattle.machine.specs.Work.{Works};

    // A step that went through, once memory has been read or written.
    fn finish(&mut self, asked: Asked, loaded: u32, tag: u32, r: u32) -> Stepped
        ensures finishes { Works R.Rulebook.meaning (λ _ state registers. done (went state registers asked (done_entry state registers asked loaded tag r))) self.old result self.new }
    {
        let effect = self.evaluate(asked.instruction, loaded);
        let result = Cell {
            word: effect.result,
            tag: r,
        };
        if let Some(d) = asked.instruction.target() {
            self.registers[usize::from(d)] = result;
        }
        let State {
            pc,
            count,
            size,
            ..
        } = self.state;
        recorded(
            size,
            Record {
                count: count.saturating_add(1),
                pc,
                word: asked.word,
                question: asked.question,
                address: asked.access.address(),
                loaded,
                result: effect.result,
                r,
                next: effect.next,
                tag,
                cause: asked.instruction.cause(),
            },
        )
    }
}

fn branch(condition: u32, next: u32, k: u32) -> u32
    ensures { result ≡ (if nat_eq condition 0 then next else wrap (next + k)) }
{
    if condition == 0 {
        next
    } else {
        next.wrapping_add(k)
    }
}

// The machine after a step is what its record tells.
fn recorded(size: u32, entry: Record) -> Stepped
    ensures { result ≡ told size entry }
{
    let state = State {
        pc: entry.next,
        tag: entry.tag,
        count: entry.count,
        size,
    };
    Stepped {
        entry,
        next: next_state(entry.cause, state),
    }
}

fn next_state(cause: Cause, state: State) -> Next
    ensures { result ≡ next_by cause state }
{
    match cause {
        Cause::Running => Next::Running(Live { state }),
        _ => Next::Ended(Stopped { state }),
    }
}

// The question of an op that was not asked.
fn unasked(group: Group, ci: u32) -> Question
    ensures { result ≡ not_asked group ci }
{
    Question {
        group,
        ci,
        ..Record::BLANK.question
    }
}
