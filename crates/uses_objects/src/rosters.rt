//! Who runs: launches, look-ups, ends and doors, by one thread and shared.
mod calls;
mod doors;
mod launches;
mod shared;
mod taking;
