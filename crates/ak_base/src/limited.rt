/// What may pass a limit. Where it does, nothing of it is kept; that is no fault yet, since what stands behind
/// it may have a fault that is told first. An `Option` beside it says whether something is given at all.
#[derive(Debug, Drop)]
pub enum Limited<T> {
    /// It passes no limit.
    Within(T),
    /// It passes a limit.
    Over,
}
