//! What holds of every history of a reply book.

ghost use Rattle.ak_port.specs.ReplyLaws as law;

/// A slot is filled or cancelled at most once, taken at most once, and taken only after it was filled.
pub fn slots_are_settled_once()
    ensures settled { law.SettledOnce }
    ensures taken { law.TakenOnce }
    ensures after { law.TakenAfterFilled }
{}
