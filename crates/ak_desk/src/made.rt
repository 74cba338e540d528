use ak_message::Message;

/// What a dispatched message came to.
#[derive(Drop)]
pub struct Made {
    /// The reply to send; none exactly where the message was sent on. One whose flat text had over 4,096 bytes
    /// is `RPLY` with `error` K_TOO_LONG here.
    pub reply: Option<Message>,
    /// Whether the message was sent on to another looper; there is no reply then.
    pub forwarded: bool,
    /// Whether the looper is to end.
    pub quit: bool,
    /// Whether memory ran out for the message: its last answer word is B_NO_MEMORY then, or it was not begun.
    pub no_memory: bool,
}
