ghost use Rattle.std.specs.Prelude.{◌≡◌};
ghost use Rattle.cases.specs.Routine.{cell as cell_of, doubling, Doubles};

use machine::Cell;

// A cell in one line: the routine has ten.
fn cell(word: u32, tag: u32) -> Cell
    ensures { result ≡ cell_of word tag }
{
    Cell { word, tag }
}

/// The cells of a routine that calls another, which doubles 7, and shows the result.
pub fn doubling_routine() -> [Cell; 16]
    ensures cells { result ≡ doubling }
    ensures doubles { Doubles }
{
    [
        cell(0x0120_0007, 16),
        cell(0x0d10_0002, 16),
        cell(0x0f02_0000, 16),
        cell(0x0000_0000, 16),
        cell(0x0130_000c, 16),
        cell(0x0a13_0000, 17),
        cell(0x0322_0002, 16),
        cell(0x0913_0000, 16),
        cell(0x0a03_0000, 18),
        cell(0x0e01_0000, 16),
        Cell::BLANK,
        Cell::BLANK,
        cell(0, 1),
        Cell::BLANK,
        Cell::BLANK,
        Cell::BLANK,
    ]
}
