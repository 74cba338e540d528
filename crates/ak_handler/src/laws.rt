//! What holds of all handlers.

ghost use Rattle.ak_handler.specs.Laws as law;

/// The chain of a handler is whole, meets each handler at most once, and meets handlers of the set alone.
pub fn chains_are_whole<R>()
    ensures { law.ChainsAreWhole R }
{}

/// Whatever changes are made, the tokens that they give rise. A handler that is there has one of these or was
/// there before. No token that was given is there again once its handler is removed.
pub fn tokens_are_never_used_again<R>()
    ensures rising { law.TokensRise R }
    ensures given { law.HandlersAreGivenTokens R }
    ensures once { law.NoTokenIsUsedAgain R }
{}
