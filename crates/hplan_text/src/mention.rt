/// An id, and the place in the text at which it stands.
#[derive(Clone, Copy)]
pub(crate) struct Mention {
    pub(crate) id: u64,
    pub(crate) at: u32,
}
