/// A standard stream of the process.
#[derive(Clone, Copy)]
pub enum Stream {
    Output,
    Error,
}
