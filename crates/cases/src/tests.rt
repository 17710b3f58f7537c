mod machines;
mod rulebooks;
