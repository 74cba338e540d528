use ak_base::ThreadId;
use std::sync::Wait;

/// A point of a looper's turn.
#[derive(Clone, Copy, Debug, PartialEq, Eq)]
pub enum Point {
    /// In the turn at the desk, before the message is routed.
    BeforeDispatch,
    /// Once that turn is finished.
    AfterDispatch,
}

/// What a looper passes before and behind each dispatch. It may wait there, and answers nothing. Each looper has
/// a clone of its own.
pub trait Gate: Clone + Send + Drop {
    /// The thread has come to that point, and goes on where this returns. Nothing is said of whether it does.
    fn at<R: Wait>(&self, rt: &R, thread: ThreadId, point: Point);
}

/// The gate at which nobody waits.
#[derive(Clone, Copy, Debug, PartialEq, Eq)]
pub struct OpenGate;

impl Gate for OpenGate {
    fn at<R: Wait>(&self, _rt: &R, _thread: ThreadId, _point: Point) {}
}
