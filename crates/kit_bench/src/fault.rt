use std::fmt::Debug;

/// Why an order has no line.
#[derive(Clone, Copy)]
pub enum BenchFault {
    /// The words are no order.
    Usage,
    /// Memory ran out, the words cannot be read, or the line cannot be written. None of the messages and handlers that
    /// are timed is refused.
    Stopped,
}

impl BenchFault {
    pub fn status(self) -> u8 {
        match self {
            BenchFault::Usage => 1,
            BenchFault::Stopped => 4,
        }
    }
}

// One for all errors of the libraries: a `From` for each costs the check more than the code that meets it.
impl<E: Debug + Drop> From<E> for BenchFault {
    fn from(_error: E) -> BenchFault {
        BenchFault::Stopped
    }
}
