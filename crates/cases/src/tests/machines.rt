use crate::doubling_routine;
use instruction::Instruction;
use journal::Journal;
use machine::{Cell, End, Live, REGISTERS, Ran, Record, Refused, Stepped};
use policies::DepthIsolation;
use refusal::Refusal;
use rulebook::Alone;
use std::test::Fail;

// What a machine is lent: cells, registers that are blank at first, and Depth Isolation.
#[derive(Drop)]
struct Board {
    cells: [Cell; 16],
    registers: [Cell; REGISTERS],
    rules: Alone<DepthIsolation>,
}

impl Board {
    // A board with these cells, and a machine on it that is at this pc.
    fn start(pc: u32, cells: [Cell; 16]) -> Result<(Board, Live), Refusal> {
        let board = Board {
            cells,
            registers: [Cell::BLANK; REGISTERS],
            rules: Alone {
                rules: DepthIsolation,
            },
        };
        let live = Live::start(pc, 0, &board.cells)?;
        Ok((board, live))
    }

    fn run(
        &mut self,
        live: Live,
        budget: u32,
        journal: &mut Journal<Record>,
    ) -> Result<Ran, Refusal> {
        Ok(live.run(
            &mut self.cells,
            &mut self.registers,
            &mut self.rules,
            budget,
            journal,
        )?)
    }
}

#[test]
fn each_op_is_decoded(rt: HostRuntime) -> Result<(), Fail> {
    let words = [
        0x0000_0000,
        0x01f0_8000,
        0x02f1_0000,
        0x03ff_000f,
        0x0412_0003,
        0x0512_0003,
        0x0612_0003,
        0x0712_0003,
        0x0812_0003,
        0x091f_ffff,
        0x0a1f_7fff,
        0x0b0f_0000,
        0x0c01_ffff,
        0x0df0_0001,
        0x0e0f_0000,
        0x0f0f_0000,
    ];
    for word in words {
        let Some(instruction) = Instruction::decode(word) else {
            return Err(Fail::new("a legal word"));
        };
        assert_eq!(rt; u32::from(u8::from(instruction.group())), word >> 24);
    }
    Ok(())
}

#[test]
fn words_with_a_wrong_field_are_illegal(rt: HostRuntime) {
    let words = [
        0x0000_0001,
        0x0101_0000,
        0x0200_0001,
        0x0300_0010,
        0x0800_ffff,
        0x0b10_0000,
        0x0b00_0001,
        0x0c10_0000,
        0x0d01_0000,
        0x0e00_0001,
        0x0f10_0000,
        0x1000_0000,
        0xff00_0000,
    ];
    for word in words {
        assert!(rt; Instruction::decode(word).is_none());
    }
}

// One step from pc 0 over 16 cells of which the first holds this word and tag.
fn first_step(pc: u32, word: u32, tag: u32) -> Result<Record, Fail> {
    let mut cells = [Cell::BLANK; 16];
    cells[0] = Cell { word, tag };
    let (mut board, live) = Board::start(pc, cells)?;
    match live.step(&mut board.cells, &mut board.registers, &mut board.rules) {
        Ok(Stepped { entry, next: _ }) => Ok(entry),
        Err(_) => Err(Fail::new("refused")),
    }
}

#[test]
fn each_cause(rt: HostRuntime) -> Result<(), Fail> {
    // pc, word, tag; cause, violation, count, and the word that is shown
    let cases = [
        (0, 0x0000_0000, 16, 0, 0, 1, 0x0000_0000),
        (16, 0x0000_0000, 16, 1, 0, 0, 0),
        (0, 0xff00_0000, 16, 2, 0, 0, 0xff00_0000),
        (0, 0x0910_0010, 16, 3, 0, 0, 0x0910_0010),
        (0, 0xff00_0000, 0, 4, 2, 0, 0),
        (0, 0x0910_0000, 16, 4, 6, 0, 0x0910_0000),
        (0, 0x0110_ffff, 16, 255, 0, 1, 0x0110_ffff),
    ];
    for (pc, word, tag, cause, violation, count, shown) in cases {
        let entry = first_step(pc, word, tag)?;
        assert_eq!(rt; entry.cause.number(), cause);
        assert_eq!(rt; entry.cause.violation(), violation);
        assert_eq!(rt; entry.count, count);
        assert_eq!(rt; entry.word, shown);
        assert_eq!(rt; entry.loaded, 0);
    }
    assert_eq!(rt; first_step(0, 0x0110_ffff, 16)?.result, 0xffff_ffff);
    assert_eq!(rt; first_step(0, 0x0910_0010, 16)?.address, 16);
    Ok(())
}

#[test]
fn the_doubling_routine_runs_as_it_was_followed(rt: HostRuntime) -> Result<(), Fail> {
    let (mut board, live) = Board::start(0, doubling_routine())?;
    let mut slots = [Record::BLANK; 64];
    let mut journal = Journal::over(&mut slots);
    let ran = board.run(live, 64, &mut journal)?;
    assert_eq!(rt; ran.added, 10);
    let End::Stopped(stopped) = ran.end else {
        return Err(Fail::new("it halts"));
    };
    assert_eq!(rt; stopped.state().pc, 3);
    let Some(entry) = journal.read(8) else {
        return Err(Fail::new("ten records"));
    };
    assert_eq!(rt; entry.result, 14);
    Ok(())
}

// JUMP to register 0: it goes round for ever.
const ROUND: Cell = Cell {
    word: 0x0b00_0000,
    tag: 16,
};

#[test]
fn a_run_is_spent_and_then_full(rt: HostRuntime) -> Result<(), Fail> {
    let (mut board, live) = Board::start(0, [ROUND; 16])?;
    let mut slots = [Record::BLANK; 8];
    let mut journal = Journal::over(&mut slots);
    let ran = board.run(live, 5, &mut journal)?;
    assert_eq!(rt; ran.added, 5);
    let End::Spent(live) = ran.end else {
        return Err(Fail::new("spent first"));
    };
    let ran = board.run(live, 5, &mut journal)?;
    assert_eq!(rt; ran.added, 3);
    let End::Full(live) = ran.end else {
        return Err(Fail::new("full then"));
    };
    assert_eq!(rt; live.state().count, 8);
    Ok(())
}

// The number, as a maker sees it, by which a run over so many registers, with this budget, is refused.
fn refused_by(registers: usize, budget: u32) -> Result<Option<u8>, Fail> {
    let (mut board, live) = Board::start(0, [ROUND; 16])?;
    let mut slots = [Record::BLANK; 1];
    let mut journal = Journal::over(&mut slots);
    if registers > REGISTERS {
        return Err(Fail::new("too many"));
    }
    match live.run(
        &mut board.cells,
        &mut board.registers[..registers],
        &mut board.rules,
        budget,
        &mut journal,
    ) {
        Ok(_) => Ok(None),
        Err(Refused { refusal, live: _ }) => Ok(Some(u8::from(refusal))),
    }
}

#[test]
fn refusals_by_the_smallest_number(rt: HostRuntime) -> Result<(), Fail> {
    assert_eq!(rt; refused_by(16, 1)?, None);
    assert_eq!(rt; refused_by(16, 1_000_000)?, None);
    assert_eq!(rt; refused_by(16, 1_000_001)?, Some(10));
    assert_eq!(rt; refused_by(16, 0)?, Some(10));
    assert_eq!(rt; refused_by(15, 1)?, Some(1));
    assert_eq!(rt; refused_by(15, 0)?, Some(1));
    assert!(rt; Live::start(0, 0, &[Cell::BLANK; 15]).is_err());
    assert!(rt; Live::start(0, 0, &[Cell::BLANK; 16]).is_ok());
    Ok(())
}
