//! Messages sent to ports by what a thread holds. A post is one entry at the port. An ask opens a slot, writes
//! with the duty to fill it, and waits for the reply. Where the write is refused it cancels the slot. Each
//! entry has the envelope and the message's flat text. `post` and `ask` may wait for a turn, for room and for a
//! reply; `post_at_turn` is handed nothing to wait with.
#![tactic(auto)]

mod asking;
mod envelope;
mod fault;
mod hands;
mod posting;

pub use asking::{Reply, ask};
pub use envelope::Envelope;
pub use fault::SendFault;
pub use hands::Hands;
pub use posting::{post, post_at_turn};
