//! Ports: what writes, takes and closings answer, by one thread and by several.
mod calls;
mod end;
mod lives;
mod three;
mod waiting;
