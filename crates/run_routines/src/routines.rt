ghost use Rattle.std.specs.Prelude.{◌≡◌};
ghost use Rattle.run_routines.specs.Routine.{cells_of};

use machine::Cell;

pub const CELLS: usize = 16;

/// The word and the tag of each cell.
pub type Routine = [(u32, u32); CELLS];

// The tags of cells, as Depth Isolation reads them. Numbers, since a routine may have the tags of any rulebook.
const PLAIN: u32 = 0;

const EMPTY: u32 = 1;

const CODE: u32 = 16;

const CLAIMS: u32 = 17;

const CLEARS: u32 = 18;

// data in the frame of depth 0
const CALLERS: u32 = 256;

const UNUSED: (u32, u32) = (0, PLAIN);

/// Calls a routine that doubles 7, and shows the result.
pub const DOUBLES: Routine = [
    (0x0120_0007, CODE), //  0  r2 = 7
    (0x0D10_0002, CODE), //  1  call 4, with the link in r1
    (0x0F02_0000, CODE), //  2  show r2
    (0x0000_0000, CODE), //  3  halt
    (0x0130_000C, CODE), //  4  r3 = 12
    (0x0A13_0000, CLAIMS), //  5  claim cell r3 and save the link there
    (0x0322_0002, CODE), //  6  r2 = r2 + r2
    (0x0913_0000, CODE), //  7  r1 = the link in cell r3
    (0x0A03_0000, CLEARS), //  8  clear cell r3
    (0x0E01_0000, CODE), //  9  return by r1
    UNUSED,
    UNUSED,
    (0, EMPTY), // 12  for the link
    UNUSED,
    UNUSED,
    UNUSED,
];

/// Reads a word of its own frame, then calls a routine that tries to read the same word.
pub const PRIES: Routine = [
    (0x0130_000D, CODE), //  0  r3 = 13
    (0x0923_0000, CODE), //  1  r2 = the word in cell r3
    (0x0D10_0002, CODE), //  2  call 5, with the link in r1
    (0x0F02_0000, CODE), //  3  show r2
    (0x0000_0000, CODE), //  4  halt
    (0x0943_0000, CODE), //  5  r4 = the word in cell r3: denied
    (0x0E01_0000, CODE), //  6  return by r1
    UNUSED,
    UNUSED,
    UNUSED,
    UNUSED,
    UNUSED,
    UNUSED,
    (42, CALLERS), // 13  the word of the caller's frame
    UNUSED,
    UNUSED,
];

pub fn cells_of(routine: Routine) -> [Cell; CELLS]
    ensures { result ≡ cells_of routine }
{
    routine.map(|(word, tag)| Cell { word, tag })
}
