ghost use Rattle.std.specs.Prelude.{◌≡◌, IfOk};
ghost use Rattle.ak_filter.specs.Filter.{admits, fits_what, fits_source, fits_delivery};

use ak_base::{Code, NoMemory, Text};

/// Where a message has to come from: of a sender in the looper's own team, or of one in another. (The Be
/// Book, The Application Kit, BMessageFilter: message_source.)
#[derive(Clone, Copy, Debug, PartialEq, Eq)]
pub enum SourceIs {
    /// From anywhere.
    Any,
    /// The sender's team is the looper's.
    Local,
    /// The sender's team is another one.
    Remote,
}

/// How a message has to be delivered: dropped by a user, or sent by a program. (The Be Book, The Application
/// Kit, BMessageFilter: message_delivery.)
#[derive(Clone, Copy, Debug, PartialEq, Eq)]
pub enum DeliveryIs {
    /// In any way.
    Any,
    /// A user dropped it.
    Dropped,
    /// No user dropped it.
    Programmed,
}

/// Which messages it admits, by three criteria, and what is to be done with one that it admits. That is
/// skipped, or it is passed on. (The Be Book, The Application Kit, BMessageFilter.)
#[derive(Debug, Drop)]
pub struct Filter {
    /// The code that a message has to have, if one is asked for.
    pub what: Option<Code>,
    /// Where it has to come from.
    pub source: SourceIs,
    /// How it has to be delivered.
    pub delivery: DeliveryIs,
    /// Whether it is skipped.
    pub skip: bool,
    /// The name of the handler that it is passed to, if one is named.
    pub to: Option<Text>,
    /// The code that it is passed on with, if another one is given.
    pub set_what: Option<Code>,
}

impl Filter {
    /// An equal filter. `NoMemory` where memory ran out for the name.
    pub fn try_clone(&self) -> Result<Filter, NoMemory>
        ensures { IfOk result (λ f. f ≡ self.now) }
    {
        let to = match &self.to {
            Some(name) => Some(name.try_clone()?),
            None => None,
        };
        Ok(Filter {
            what: self.what,
            source: self.source,
            delivery: self.delivery,
            skip: self.skip,
            to,
            set_what: self.set_what,
        })
    }
}

/// What a filter looks at of a message.
#[derive(Clone, Copy, Debug, PartialEq, Eq)]
pub struct Head {
    /// Its code.
    pub what: Code,
    /// Whether its sender's team is the looper's.
    pub local: bool,
    /// Whether a user dropped it.
    pub dropped: bool,
}

/// Whether the filter admits the message: each of its criteria is any, or fits. Takes no memory.
pub fn admits(filter: &Filter, head: &Head) -> bool
    ensures { result ≡ admits filter.now head.now }
{
    fits_what(filter.what, head.what)
        && fits_source(filter.source, head.local)
        && fits_delivery(filter.delivery, head.dropped)
}

fn fits_what(what: Option<Code>, code: Code) -> bool
    ensures { result ≡ fits_what what code.0 }
{
    match what {
        Some(what) => what == code,
        None => true,
    }
}

fn fits_source(source: SourceIs, local: bool) -> bool
    ensures { result ≡ fits_source source local }
{
    match source {
        SourceIs::Any => true,
        SourceIs::Local => local,
        SourceIs::Remote => !local,
    }
}

fn fits_delivery(delivery: DeliveryIs, dropped: bool) -> bool
    ensures { result ≡ fits_delivery delivery dropped }
{
    match delivery {
        DeliveryIs::Any => true,
        DeliveryIs::Dropped => dropped,
        DeliveryIs::Programmed => !dropped,
    }
}
