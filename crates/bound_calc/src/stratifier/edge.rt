/// A method, by its place in the compiled list, and the number of one of its children.
#[derive(Clone, Copy, PartialEq, Eq)]
pub struct Edge {
    pub method: u32,
    pub child: u32,
}
