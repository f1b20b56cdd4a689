/// Over what a bound is computed.
#[derive(Clone, Copy)]
pub enum Level {
    /// The schemas that are reached from the top task.
    Lifted,
    /// The ground tasks and ground methods that are reached from the top task and the first state.
    Ground,
}
