//! The top call: each ending has its cause, and its run is ended, with a block of sessions too.
mod blocks;
mod endings;
mod fixture;
mod generated;
mod inputs;
mod journals;
mod reading;
