//! Handlers, filters and messages to be routed, and rows that tell where each message goes.
ghost use Rattle.std.specs.Prelude.{◌≡◌, ◌==◌, ◌∷◌, []};
ghost use Rattle.std.specs.List.{position};

use ak_base::{Code, Items, Text};
use ak_filter::{DeliveryIs, Filter, FilterList, SourceIs};
use ak_handler::HandlerSet;
use ak_message::{At, Kind, Message, Specifier, Target, Value};
use ak_property::{HandlerRow, PropertyRow, PropertyTable};
use ak_route::{Place, Route, Taker, route};
use ak_specifier::add_specifier;
use std::alloc::Global;
use std::test::Fail;

pub const PING: Code = Code(0x7069_6E67);

pub const PONG: Code = Code(0x706F_6E67);

pub const GET: Code = Code::GET;

pub const SET: Code = Code::SET;

pub const COUNT: Code = Code::COUNT;

pub const QUIT: Code = Code::QUIT_REQUESTED;

pub const READY: Code = Code::READY_TO_RUN;

pub const ARGV: Code = Code::ARGV_RECEIVED;

pub const SUITES: Code = Code::SUITES;

/// What a handler holds here: two reactions, each to no code that is sent where it is 0.
#[derive(Drop)]
pub struct Held {
    pub table: PropertyTable,
    pub filters: FilterList,
    pub reaction: Code,
    pub other_reaction: Code,
}

impl HandlerRow for Held {
    ghost use Rattle.std.specs.Prelude.{◌∷◌, []};

    ghost told = { λ h. record { table = h.table; filters = h.filters; reactions = h.reaction.0 ∷ h.other_reaction.0 ∷ [] } };

    fn table(&self) -> &PropertyTable
        ensures { result.now ≡ self.now.table }
    {
        &self.table
    }

    fn filters(&self) -> &FilterList
        ensures { result.now ≡ self.now.filters }
    {
        &self.filters
    }

    fn reaction_on(&self, what: Code) -> Option<u32>
        ensures { result ≡ position (λ code. code == what.0) (self.now.reaction.0 ∷ self.now.other_reaction.0 ∷ []) }
    {
        if self.reaction == what {
            Some(0)
        } else if self.other_reaction == what {
            Some(1)
        } else {
            None
        }
    }
}

fn text(alloc: Global, bytes: &[u8]) -> Result<Text, Fail> {
    Ok(Text::from_bytes(alloc, bytes)?)
}

// None for the empty text.
fn text_or_none(alloc: Global, bytes: &[u8]) -> Result<Option<Text>, Fail> {
    if bytes.is_empty() {
        Ok(None)
    } else {
        Ok(Some(text(alloc, bytes)?))
    }
}

// ---- loopers, in plain data
/// A property: its name, and the commands and the forms that it takes; none of them stand for all.
pub type Property = (&'static [u8], &'static [Code], &'static [u32]);

/// What a looper holds: its properties, and its reactions.
pub type Own = (&'static [Property], [Code; 2]);

/// A handler with `Title`: its name, its reaction, and its filters.
pub type Beside = (&'static [u8], Code, &'static [FilterRow]);

/// A filter: on which code, whether it skips, to which name it passes, if to any, and which code it sets.
pub type FilterRow = (Option<Code>, bool, &'static [u8], Option<Code>);

/// What is changed of a looper that is made.
#[derive(Clone, Copy)]
pub enum Change {
    Next(u64, Option<u64>),
    Prefer(u64),
    Remove(u64),
}

/// A looper `demo`, handlers beside it, what is changed then, the common filters, and the rows that it is tried with.
#[derive(Clone, Copy)]
pub struct Scene {
    pub label: &'static str,
    pub own: Own,
    pub beside: &'static [Beside],
    pub changes: &'static [Change],
    pub common: &'static [FilterRow],
    pub rows: &'static [Row],
}

/// No reaction is to this code, which is sent nowhere.
pub const NO_CODE: Code = Code(0);

/// With `Count`, and no reaction.
pub const COUNTING: Own = (&[(b"Count", &[], &[])], [NO_CODE, NO_CODE]);

/// The handlers `a` (1) and `b` (2).
pub const A_AND_B: &[Beside] = &[(b"a", NO_CODE, &[]), (b"b", PING, &[])];

fn table_of(alloc: Global, properties: &[Property]) -> Result<PropertyTable, Fail> {
    let mut table = PropertyTable::new(alloc);
    for (name, commands, forms) in properties {
        table.add_row(PropertyRow {
            name: text(alloc, name)?,
            kind: Kind::Text,
            commands: Items::from_vec(commands.to_vec(alloc)?),
            forms: Items::from_vec(forms.to_vec(alloc)?),
            usage: text(alloc, b"")?,
        })?;
    }
    Ok(table)
}

pub fn filters_of(alloc: Global, rows: &[FilterRow]) -> Result<FilterList, Fail> {
    let mut filters = FilterList::new(alloc);
    for (what, skip, name, set_what) in rows {
        filters.push(Filter {
            what: *what,
            source: SourceIs::Any,
            delivery: DeliveryIs::Any,
            skip: *skip,
            to: text_or_none(alloc, name)?,
            set_what: *set_what,
        })?;
    }
    Ok(filters)
}

fn held_of(alloc: Global, own: &Own, filters: &[FilterRow]) -> Result<Held, Fail> {
    let (properties, [reaction, other_reaction]) = *own;
    Ok(Held {
        table: table_of(alloc, properties)?,
        filters: filters_of(alloc, filters)?,
        reaction,
        other_reaction,
    })
}

/// The looper `demo`.
pub fn looper_of(alloc: Global, own: &Own) -> Result<HandlerSet<Held>, Fail> {
    let held = held_of(alloc, own, &[])?;
    Ok(HandlerSet::new(alloc, text(alloc, b"demo")?, held)?)
}

fn add_handlers(
    alloc: Global,
    set: &mut HandlerSet<Held>,
    handlers: &[Beside],
) -> Result<(), Fail> {
    for (name, reaction, filters) in handlers {
        let own: Own = (&[(b"Title", &[], &[])], [*reaction, NO_CODE]);
        set.add(text(alloc, name)?, held_of(alloc, &own, filters)?)?;
    }
    Ok(())
}

fn apply(set: &mut HandlerSet<Held>, changes: &[Change]) -> Result<(), Fail> {
    for change in changes {
        match *change {
            Change::Next(token, next) => set.set_next(token, next)?,
            Change::Prefer(token) => set.set_preferred(Some(token))?,
            Change::Remove(token) => {
                set.remove(token)?;
            }
        }
    }
    Ok(())
}

fn set_of(alloc: Global, scene: &Scene) -> Result<HandlerSet<Held>, Fail> {
    let mut set = looper_of(alloc, &scene.own)?;
    add_handlers(alloc, &mut set, scene.beside)?;
    apply(&mut set, scene.changes)?;
    Ok(set)
}

// ---- messages, in plain data
fn property(letter: u8) -> &'static [u8] {
    match letter {
        b'C' => b"Count",
        b'T' => b"Title",
        b'H' => b"Handler",
        b'L' => b"Looper",
        b'S' => b"Suites",
        _ => b"Nothing",
    }
}

// A dot for the property itself, a digit for an index, a letter up to `f` for a reverse index from 0 on, and
// others for a name.
fn form(alloc: Global, letter: u8) -> Result<At, Fail> {
    Ok(match letter {
        b'.' => At::Direct,
        b'0'..=b'9' => At::Index(i32::from(letter - b'0')),
        b'a'..=b'f' => At::Reverse(i32::from(letter - b'a')),
        b'w' => At::Name(text(alloc, b"work")?),
        b'A' => At::Name(text(alloc, b"a")?),
        _ => At::Name(text(alloc, b"none")?),
    })
}

// Adds a specifier of `Title` that has the code of a form, and not what that form asks for.
fn add_bare(alloc: Global, message: &mut Message, form: u32) -> Result<(), Fail> {
    let mut specifier = Message::new(alloc, Code(form));
    specifier.add(b"property", Value::Text(text(alloc, b"Title")?))?;
    Ok(message.add(b"specifiers", Value::from_message(alloc, specifier)?)?)
}

// A letter for the property and one for the form. A `!` and a digit are a specifier that has no more than its form.
fn add_one(alloc: Global, message: &mut Message, letter: u8, at: u8) -> Result<(), Fail> {
    if letter == b'!' {
        return add_bare(alloc, message, u32::from(at.saturating_sub(b'0')));
    }
    let specifier = Specifier {
        property: text(alloc, property(letter))?,
        at: form(alloc, at)?,
    };
    Ok(add_specifier(alloc, message, specifier)?)
}

/// With two letters for each specifier, in the order of adding.
pub fn message(alloc: Global, what: Code, specifiers: &[u8]) -> Result<Message, Fail> {
    let mut message = Message::new(alloc, what);
    for pair in specifiers.chunks_exact(2) {
        add_one(alloc, &mut message, pair[0], pair[1])?;
    }
    Ok(message)
}

/// The route of a message, how many of its specifiers are popped then, and its code then.
pub type Told = (Route, u32, Code);

/// What comes of a message that is local or not, and that was dropped or not, at an application's own looper or not.
pub fn routed_from(
    alloc: Global,
    set: &HandlerSet<Held>,
    common: &FilterList,
    own: bool,
    origin: (bool, bool),
    first: Target,
    mut message: Message,
) -> Result<Told, Fail> {
    let (local, dropped) = origin;
    let loopers = vec![in alloc; text(alloc, b"demo")?, text(alloc, b"work")?]?;
    let place = if own {
        Place::own(loopers.as_slice())
    } else {
        Place::other()
    };
    let route = route(set, common, &mut message, local, dropped, first, &place);
    Ok((route, message.popped(), message.what()))
}

/// Whether it is an application's own looper, where the message is for, its code and its specifiers; and its route, how
/// many specifiers are popped then, and its code then. A program of the looper's team sent it.
pub type Row = (bool, Target, Code, &'static [u8], Route, u32, Code);

/// What came, and what was to come.
pub type Other = (Told, Told);

// The first row that is told otherwise, and its place.
fn first_row(
    alloc: Global,
    set: &HandlerSet<Held>,
    common: &FilterList,
    rows: &[Row],
) -> Result<Option<(usize, Other)>, Fail> {
    for (place, &(own, first, what, specifiers, route, popped, code)) in rows.iter().enumerate() {
        let message = message(alloc, what, specifiers)?;
        let told = routed_from(alloc, set, common, own, (true, false), first, message)?;
        let wanted = (route, popped, code);
        if told != wanted {
            return Ok(Some((place, (told, wanted))));
        }
    }
    Ok(None)
}

/// The first scene with a row that is told otherwise: its label, and the row.
pub type First = (&'static str, (usize, Other));

pub fn first_scene(alloc: Global, scenes: &[Scene]) -> Result<Option<First>, Fail> {
    for scene in scenes {
        let set = set_of(alloc, scene)?;
        let common = filters_of(alloc, scene.common)?;
        if let Some(other) = first_row(alloc, &set, &common, scene.rows)? {
            return Ok(Some((scene.label, other)));
        }
    }
    Ok(None)
}

pub const PREFERRED: Target = Target::Preferred;

pub const TO_LOOPER: Target = Target::Token(0);

pub const TO_A: Target = Target::Token(1);

pub const TO_B: Target = Target::Token(2);

pub const LOST: Route = Route::NotUnderstood;

pub const SKIPPED: Route = Route::Skipped;

pub const DROPPED: Route = Route::Dropped;

/// To the application's second looper.
pub const FORWARD: Route = Route::Forward { looper: 1 };

/// What the first property of the looper, of `a` or of `b` takes.
pub const AT_LOOPER: Route = Route::Deliver {
    token: 0,
    taker: Taker::Property(0),
};

pub const AT_A: Route = Route::Deliver {
    token: 1,
    taker: Taker::Property(0),
};

pub const AT_B: Route = Route::Deliver {
    token: 2,
    taker: Taker::Property(0),
};

/// What is built into the looper, into `a` or into `b`.
pub const BUILT_IN: Route = Route::Deliver {
    token: 0,
    taker: Taker::BuiltIn,
};

pub const BUILT_IN_A: Route = Route::Deliver {
    token: 1,
    taker: Taker::BuiltIn,
};

pub const BUILT_IN_B: Route = Route::Deliver {
    token: 2,
    taker: Taker::BuiltIn,
};

/// What the first reaction of the looper, of `a` or of `b` takes, and the looper's second one.
pub const REACTS: Route = Route::Deliver {
    token: 0,
    taker: Taker::Reaction(0),
};

pub const REACTS_OTHERWISE: Route = Route::Deliver {
    token: 0,
    taker: Taker::Reaction(1),
};

pub const A_REACTS: Route = Route::Deliver {
    token: 1,
    taker: Taker::Reaction(0),
};

pub const B_REACTS: Route = Route::Deliver {
    token: 2,
    taker: Taker::Reaction(0),
};
