/// A part of a text: from the byte at `start` up to the byte before `end`, both offsets from 0.
#[derive(Clone, Copy, PartialEq, Eq)]
pub struct Span {
    pub start: u32,
    pub end: u32,
}

/// Why a text is refused: the fault's code, the file's place among the inputs of the command, from 0,
/// and the offset in bytes from 0 at which the fault stands.
#[derive(Clone, Copy, Debug, PartialEq, Eq)]
pub struct Fault {
    pub code: u16,
    pub file: u8,
    pub at: u32,
}
