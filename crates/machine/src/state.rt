ghost use Rattle.std.specs.Prelude.{◌≡◌, IfErr};
ghost use Rattle.refusal.specs.Refusal.{refusal_number};
ghost use Rattle.machine.specs.Calls.{fitting, in_limits, start_answer};

use crate::cell::Cell;
use crate::records::Record;
use crate::stopped::Stopped;
use refusal::Refusal;

/// The number of steps made; it stays at the largest.
pub type Count = u32;

/// A machine has so many cells at least, and at most.
pub const FEWEST_CELLS: usize = 16;

pub const MOST_CELLS: usize = 4096;

pub const REGISTERS: usize = 16;

/// The largest number of steps that a run can be asked for.
pub const MOST_STEPS: u32 = 1_000_000;

/// The numbers of a machine.
#[derive(Clone, Copy, Debug)]
pub struct State {
    pub pc: u32,
    /// of the pc
    pub tag: u32,
    pub count: Count,
    /// how many cells the machine was made with
    pub size: u32,
}

/// A machine that can be stepped.  It can be neither copied nor made from a stopped one.
#[derive(Drop)]
pub struct Live {
    pub(crate) state: State,
}

/// The machine after a step.
// No Result or ControlFlow: that it stopped is no failure, and the two names say what follows.
#[derive(Drop)]
pub enum Next {
    Running(Live),
    Ended(Stopped),
}

/// What a step did, and the machine after it.
#[derive(Drop)]
pub struct Stepped {
    pub entry: Record,
    pub next: Next,
}

/// Why a run is over, and the machine then.
#[derive(Drop)]
pub enum End {
    Stopped(Stopped),
    /// the budget is spent
    Spent(Live),
    /// the journal has no place for another record
    Full(Live),
}

/// What a run answers.
#[derive(Drop)]
pub struct Ran {
    pub end: End,
    /// how many records were added to the journal
    pub added: usize,
}

/// A call that was not made: why, and the machine as it was.
#[derive(Drop)]
pub struct Refused {
    pub refusal: Refusal,
    pub live: Live,
}

// For callers that pass the refusal on by `?` and let the machine go.
impl From<Refused> for Refusal {
    ghost from_gives = { λ x r. r ≡ x.refusal };

    fn from(refused: Refused) -> Refusal {
        refused.refusal
    }
}

impl Live {
    /// A machine over these cells that has made no step yet.
    pub fn start(pc: u32, tag: u32, cells: &[Cell]) -> Result<Live, Refusal>
        ensures started { result ≡ start_answer pc tag cells.now }
        ensures refused { IfErr result (λ e. refusal_number e ≡ 1) }
    {
        let size = cells.len();
        if !in_limits(size) {
            return Err(Refusal::Sizes);
        }
        Ok(Live {
            state: State {
                pc,
                tag,
                count: 0,
                size: size as u32,
            },
        })
    }

    pub fn state(&self) -> State
        ensures { result ≡ self.now.state }
    {
        self.state
    }
}

/// Whether a machine may have so many cells.
pub fn in_limits(size: usize) -> bool
    ensures { result ≡ in_limits size }
{
    (FEWEST_CELLS..=MOST_CELLS).contains(&size)
}

// Whether cells and registers are as many as the machine needs.
pub(crate) fn fits(state: State, cells: &[Cell], registers: &[Cell]) -> bool
    ensures { result ≡ fitting state cells.now registers.now }
{
    let size = cells.len();
    in_limits(size) && size == state.size as usize && registers.len() == REGISTERS
}
