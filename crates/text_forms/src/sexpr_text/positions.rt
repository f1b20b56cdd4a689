/// The number of a token from 0, and an offset in bytes from which on the tokens from that number on stand: from here
/// they are read one after another, and none is looked up. Behind the last token the offset is the length of the text.
#[derive(Clone, Copy)]
pub struct Position {
    pub token: u32,
    pub at: u32,
}
