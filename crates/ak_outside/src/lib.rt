//! The outside: where the program's bytes come from and where they go, and how its threads are started. A
//! `Source`, a `Sink` and a `Spawner` count their faults, and a fault is answered only where that count rose. Those
//! in memory tell what they have left or have written, and those of the system as far as what is below them tells
//! it. Clauses on content hold where it is told. `read_all` and `write_all` are the ways through, with a limit for
//! what comes in. `start_by` starts a thread or gives its work back. A `Gate` is what a looper passes at each dispatch.
#![tactic(auto)]

mod call_log;
mod gate;
mod list_sink;
mod planned_spawner;
mod reading;
mod sink;
mod source;
mod spawner;
mod standard;
mod text_source;
mod writing;

pub use gate::{Gate, OpenGate, Point};
pub use list_sink::ListSink;
pub use planned_spawner::PlannedSpawner;
pub use reading::{ReadFault, read_all};
pub use sink::{Sink, SinkWrite};
pub use source::{Source, SourceRead};
pub use spawner::{NotStarted, Spawner, start_by};
pub use standard::{StdSink, StdSource, StdSpawner};
pub use text_source::TextSource;
pub use writing::{WriteFailed, write_all};
