//! The second pass: the names that lines give, which may be those of later lines.

ghost use Rattle.std.specs.Prelude.{◌≡◌, Some, option_map};
ghost use Rattle.ak_describe.specs.Answers.{refused};
ghost use Rattle.ak_describe.specs.Led as reads;
ghost use Rattle.ak_describe.specs.Second.{unknown, order_fault, fits, first_fit};
ghost use Rattle.ak_describe.specs.Seen.{app_data, apps_data, looper_data};

use crate::fault::DescribeFault;
use crate::named::{Named, Need};
use crate::parts::{AppParts, LooperParts};
use ak_base::{AppWord, RefusalKind};
use ak_handler::HANDLER_LIMIT;
use ak_roster::word_fits;

/// The first fault in the order of the lines.
#[tactic(auto, unfolding(crate::specs::Led::led_fault))]
pub(crate) fn second_fault(apps: &[AppParts], names: &[Named]) -> Option<DescribeFault>
    ensures { result ≡ option_map refused (reads.led_fault (apps_data apps.now) (reads.chains_of 0 0) names.now) }
{
    let mut chains = Chains::of(0, 0);
    for named in names {
        if let Some(kind) = kind_of(apps, &mut chains, named) {
            return Some(DescribeFault::Refused {
                line: named.line,
                kind,
            });
        }
    }
    None
}

// What is wrong with a name.
fn kind_of(apps: &[AppParts], chains: &mut Chains, named: &Named) -> Option<RefusalKind>
    ensures kind { result ≡ reads.kind_of (apps_data apps.now) chains.old named.now }
    ensures chains { chains.new ≡ reads.chains_after (apps_data apps.now) chains.old named.now }
{
    let app = apps.get(named.app)?;
    kind_in_app(apps, app, chains, named)
}

fn kind_in_app(
    apps: &[AppParts],
    app: &AppParts,
    chains: &mut Chains,
    named: &Named,
) -> Option<RefusalKind>
    ensures kind { result ≡ reads.kind_in_app (apps_data apps.now) chains.old named.now (Some (app_data app.now)) }
    ensures chains { chains.new ≡ reads.chains_in_app chains.old named.now (Some (app_data app.now)) }
{
    let looper = app.loopers.get(named.looper)?;
    kind_in_looper(apps, app, looper, chains, named)
}

fn kind_in_looper(
    apps: &[AppParts],
    app: &AppParts,
    looper: &LooperParts,
    chains: &mut Chains,
    named: &Named,
) -> Option<RefusalKind>
    ensures kind { result ≡ reads.kind_of_need (apps_data apps.now) (app_data app.now) (looper_data looper.now) chains.old named.now named.now.need }
    ensures chains { chains.new ≡ reads.chains_of_need (looper_data looper.now) chains.old named.now named.now.need }
{
    match &named.need {
        Need::Next(name) => next_fault(chains, named, looper.row_named(name.as_bytes())),
        Need::Handler(name) => unknown(looper.row_named(name.as_bytes())),
        Need::Looper(name) => unknown(app.looper_named(name.as_bytes())),
        Need::AskLooper(name) => order_fault(app.looper_named(name.as_bytes()), named.looper),
        Need::AskApp(word) => order_fault(first_fit(apps, word), named.app),
    }
}

fn unknown(place: Option<usize>) -> Option<RefusalKind>
    ensures { result ≡ unknown place }
{
    match place {
        Some(_) => None,
        None => Some(RefusalKind::UnknownName),
    }
}

// What is asked has to be there, and stand behind the place that asks.
fn order_fault(place: Option<usize>, asks: usize) -> Option<RefusalKind>
    ensures { result ≡ order_fault place asks }
{
    match place {
        Some(place) => {
            if asks < place {
                None
            } else {
                Some(RefusalKind::AskOrder)
            }
        }
        None => Some(RefusalKind::UnknownName),
    }
}

// ---- applications
// The first application that a word fits: where it stands behind the one that asks, so do all that fit.
fn first_fit(apps: &[AppParts], word: &AppWord) -> Option<usize>
    ensures { result ≡ first_fit (apps_data apps.now) word.now }
{
    apps.iter().position(|app| fits(app, word))
}

fn fits(app: &AppParts, word: &AppWord) -> bool
    ensures { result ≡ fits word.now (app_data app.now) }
{
    word_fits(word, app.path.as_bytes(), app.signature.as_bytes())
}

// ---- chains
// Of the handlers of a looper the places of their next ones, by the lines so far. A handler without such a
// line leads to the looper, whose place is 0.
#[derive(Drop)]
struct Chains {
    app: usize,
    looper: usize,
    next: [usize; HANDLER_LIMIT],
}

impl Chains {
    fn of(app: usize, looper: usize) -> Chains
        ensures { result ≡ reads.chains_of app looper }
    {
        Chains {
            app,
            looper,
            next: [0; HANDLER_LIMIT],
        }
    }

    // Begins anew at another looper.
    fn enter(&mut self, app: usize, looper: usize)
        ensures { self.new ≡ reads.entered self.old app looper }
    {
        if self.app != app || self.looper != looper {
            *self = Chains::of(app, looper);
        }
    }

    // Leads a handler on to another one.
    fn lead(&mut self, row: usize, next: usize)
        ensures { self.new ≡ reads.led self.old row next }
    {
        if row < self.next.len() {
            self.next[row] = next;
        }
    }

    // Whether the chain from that handler comes back to it.
    fn comes_back(&self, row: usize) -> bool
        ensures { result ≡ reads.comes_back self.now row }
    {
        let mut at = row;
        for _ in 0..self.next.len() {
            at = self.next_of(at);
            if at == row {
                return true;
            }
        }
        false
    }

    fn next_of(&self, place: usize) -> usize
        ensures { result ≡ reads.next_of self.now place }
    {
        match self.next.get(place) {
            Some(next) => *next,
            None => 0,
        }
    }
}

// A next handler has to be there, and to close no loop with the lines before.
fn next_fault(chains: &mut Chains, named: &Named, next: Option<usize>) -> Option<RefusalKind>
    ensures kind { result ≡ reads.closed chains.old named.now next }
    ensures chains { chains.new ≡ reads.chained chains.old named.now next }
{
    let Some(next) = next else {
        return Some(RefusalKind::UnknownName);
    };
    chains.enter(named.app, named.looper);
    chains.lead(named.row, next);
    if chains.comes_back(named.row) {
        Some(RefusalKind::ChainLoop)
    } else {
        None
    }
}
