/// A word and its tag: a memory cell, or a register.
#[derive(Clone, Copy, Debug)]
pub struct Cell {
    pub word: u32,
    pub tag: u32,
}

impl Cell {
    /// Word 0 and tag 0.
    pub const BLANK: Cell = Cell { word: 0, tag: 0 };
}
