// A line of text, and how far it is read.
ghost use Rattle.std.specs.Prelude.{◌≤◌, length};

pub mod numbers;
pub mod stations;
pub mod steps;

// The bytes of a line, and the place up to which they are read.
// A slice of what is left to read would be no plainer: columns need the count beside it. That a step leaves the text is
// a fact of the scanner before and after, which no field can hold: each step's contract has it.
#[derive(Drop)]
pub struct Scanner<'a> {
    text: &'a [u8],
    at: usize,
    ghost within: { at ≤ length text.now },
}
