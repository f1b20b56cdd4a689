/// All objects of a type, where these are so many from a number on.
#[derive(Clone, Copy)]
pub struct Range {
    pub ty: u32,
    pub first: u32,
    pub count: u32,
}
