//! The first pass: each line by itself and with the lines before it.

ghost use Rattle.std.specs.Prelude.{◌≡◌, ◌<◌, option_map, OnOk, OnErr, vec_len, vec_capacity};
ghost use Rattle.ak_describe.specs.Answers.{Leaves, Reaches};
ghost use Rattle.ak_describe.specs.Parts.{has_path};
ghost use Rattle.ak_describe.specs.Pass as reads;
ghost use Rattle.ak_describe.specs.Seen.{app_data, apps_data, looper_seen, state_of};
ghost use Rattle.ak_describe.specs.Words.{texts};

use crate::fault::LineFault;
use crate::form::heads::{app_form, looper_form};
use crate::keyword::{After, Keyword, keyword_of};
use crate::named::{Named, Need};
use crate::parts::{AppParts, LooperParts, RowParts};
use ak_base::{APP_LOOPER_LIMIT, NoMemory};
use ak_filter::FilterList;
use ak_input::{Line, Word};
use ak_roster::APP_LIMIT;
use std::alloc::Global;

mod looper;
mod row;

/// What the lines say so far. The last application is open.
#[derive(Drop)]
pub(crate) struct LinesSoFar {
    pub apps: Vec<AppParts>,
    /// What the last line lets follow.
    after: After,
    /// The names that may be given later, in the order of their lines.
    pub names: Vec<Named>,
}

impl LinesSoFar {
    pub(crate) fn new(alloc: Global) -> LinesSoFar
        ensures { state_of result ≡ reads.nothing_read }
    {
        LinesSoFar {
            apps: Vec::new(alloc),
            after: After::Plain,
            names: Vec::new(alloc),
        }
    }

    /// Reads a line, of which the first word says what it is.
    #[tactic(auto, unfolding(crate::specs::Pass::read_line))]
    pub(crate) fn read_line(&mut self, alloc: Global, line: &Line) -> Result<(), LineFault>
        ensures read { Reaches result (state_of self.new) (reads.read_line (state_of self.old) line.now) }
        ensures err { OnErr result (state_of self.new ≡ state_of self.old) }
    {
        let Some((first, words)) = line.words.as_slice().split_first() else {
            return Err(LineFault::UnknownLine);
        };
        let Some(keyword) = keyword_of(first.bytes.as_slice()) else {
            return Err(LineFault::UnknownLine);
        };
        if !self.may_stand(keyword) {
            return Err(LineFault::UnknownLine);
        }
        // What a line adds is not taken back, so the room for its name comes first.
        reserve_name(&mut self.names)?;
        let need = carry(alloc, &mut self.apps, keyword, words)?;
        add_name(&mut self.names, &self.apps, line.number, need);
        self.after = keyword.after();
        Ok(())
    }

    // Whether a line that begins so may stand behind the lines so far.
    fn may_stand(&self, keyword: Keyword) -> bool
        ensures { result ≡ reads.may_stand (state_of self.now) keyword }
    {
        match keyword {
            Keyword::App => may_open_app(&self.apps),
            Keyword::Looper => !self.apps.is_empty(),
            Keyword::Element => self.after.allows_element(),
            Keyword::Reply
            | Keyword::Post
            | Keyword::Ask
            | Keyword::Set
            | Keyword::Add
            | Keyword::Drop
            | Keyword::Quit => self.after.allows_action(),
            Keyword::Hook
            | Keyword::Prefer
            | Keyword::Common
            | Keyword::Handler
            | Keyword::Next
            | Keyword::Suite
            | Keyword::Filter
            | Keyword::Property
            | Keyword::On => may_follow(&self.apps, keyword),
        }
    }
}

// ---- what is open
/// An application has a looper before the next one comes.
pub(crate) fn may_open_app(apps: &[AppParts]) -> bool
    ensures { result ≡ reads.may_open_app (apps_data apps.now) }
{
    match apps.last() {
        Some(app) => !app.loopers.is_empty(),
        None => true,
    }
}

fn open_looper(apps: &[AppParts]) -> Option<&LooperParts>
    ensures { option_map looper_seen result ≡ reads.open_looper (apps_data apps.now) }
{
    apps.last()?.loopers.last()
}

// Whether a line of a looper or a handler may stand.
fn may_follow(apps: &[AppParts], keyword: Keyword) -> bool
    ensures { result ≡ reads.follows (reads.open_looper (apps_data apps.now)) keyword }
{
    match open_looper(apps) {
        Some(looper) => looper.may_follow(keyword),
        None => false,
    }
}

// ---- what a line adds
// What the further words add, and the name in them that may be given later.
fn carry(
    alloc: Global,
    apps: &mut Vec<AppParts>,
    keyword: Keyword,
    words: &[Word],
) -> Result<Option<Need>, LineFault>
    ensures read { Leaves result (apps_data apps.new.items) (reads.carry (apps_data apps.old.items) keyword (texts words.now)) }
    ensures err { OnErr result (apps_data apps.new.items ≡ apps_data apps.old.items) }
{
    match keyword {
        Keyword::App => app_line(alloc, apps, words),
        Keyword::Looper => looper_in(alloc, apps, words),
        _ => in_last_app(alloc, apps, keyword, words),
    }
}

// An application begins.
fn app_line(
    alloc: Global,
    apps: &mut Vec<AppParts>,
    words: &[Word],
) -> Result<Option<Need>, LineFault>
    ensures read { Leaves result (apps_data apps.new.items) (reads.app_line (apps_data apps.old.items) (texts words.now)) }
    ensures err { OnErr result (apps_data apps.new.items ≡ apps_data apps.old.items) }
{
    let form = app_form(alloc, words)?;
    if has_path(apps.as_slice(), form.path.as_bytes()) {
        return Err(LineFault::NameInUse);
    }
    if apps.len() >= APP_LIMIT {
        return Err(LineFault::Limit);
    }
    apps.push(AppParts {
        path: form.path,
        signature: form.signature,
        mode: form.mode,
        loopers: Vec::new(alloc),
    })?;
    Ok(None)
}

fn has_path(apps: &[AppParts], path: &[u8]) -> bool
    ensures { result ≡ has_path (apps_data apps.now) path.now }
{
    apps.iter().any(|app| app.path.as_bytes() == path)
}

// A looper begins, in the last application.
fn looper_in(
    alloc: Global,
    apps: &mut Vec<AppParts>,
    words: &[Word],
) -> Result<Option<Need>, LineFault>
    ensures read { Leaves result (apps_data apps.new.items) (reads.looper_in (apps_data apps.old.items) (texts words.now)) }
    ensures err { OnErr result (apps_data apps.new.items ≡ apps_data apps.old.items) }
{
    let Some(app) = apps.last_mut() else {
        return Err(LineFault::UnknownLine);
    };
    app.looper_line(alloc, words)
}

// A line of the last application's last looper.
fn in_last_app(
    alloc: Global,
    apps: &mut Vec<AppParts>,
    keyword: Keyword,
    words: &[Word],
) -> Result<Option<Need>, LineFault>
    ensures read { Leaves result (apps_data apps.new.items) (reads.in_last_app (apps_data apps.old.items) keyword (texts words.now)) }
    ensures err { OnErr result (apps_data apps.new.items ≡ apps_data apps.old.items) }
{
    let Some(app) = apps.last_mut() else {
        return Err(LineFault::UnknownLine);
    };
    app.in_last_looper(alloc, keyword, words)
}

// Room for one name more.
fn reserve_name(names: &mut Vec<Named>) -> Result<(), NoMemory>
    ensures names { names.new.items ≡ names.old.items }
    ensures room { OnOk result (vec_len names.new < vec_capacity names.new) }
{
    names.reserve(1)?;
    Ok(())
}

// Keeps the name of a line of the handler that is open, if there is one.
fn add_name(names: &mut Vec<Named>, apps: &[AppParts], line: u32, need: Option<Need>)
    requires { vec_len names.old < vec_capacity names.old }
    ensures { names.new.items ≡ reads.with_need names.old.items (apps_data apps.now) line need }
{
    if let Some(need) = need {
        names.push_reserved(new_name(apps, line, need));
    }
}

// A name in a line of the handler that is open.
fn new_name(apps: &[AppParts], line: u32, need: Need) -> Named
    ensures { result ≡ reads.new_name (apps_data apps.now) line need }
{
    Named {
        line,
        app: apps.len().saturating_sub(1),
        looper: open_looper_place(apps),
        row: open_row_place(apps),
        need,
    }
}

// The place of the looper that is open.
fn open_looper_place(apps: &[AppParts]) -> usize
    ensures { result ≡ reads.open_looper_place (apps_data apps.now) }
{
    match apps.last() {
        Some(app) => app.loopers.len().saturating_sub(1),
        None => 0,
    }
}

// The place of the handler that is open.
fn open_row_place(apps: &[AppParts]) -> usize
    ensures { result ≡ reads.open_row_place (apps_data apps.now) }
{
    match open_looper(apps) {
        Some(looper) => looper.rows.len().saturating_sub(1),
        None => 0,
    }
}

impl AppParts {
    // A looper begins. The first one is the application's own, whose port keeps two messages or more.
    fn looper_line(&mut self, alloc: Global, words: &[Word]) -> Result<Option<Need>, LineFault>
        ensures read { Leaves result (app_data self.new) (reads.looper_line (app_data self.old) (texts words.now)) }
        ensures err { OnErr result (app_data self.new ≡ app_data self.old) }
    {
        let form = looper_form(alloc, self.least_capacity(), words)?;
        if self.looper_named(form.name.as_bytes()).is_some() {
            return Err(LineFault::NameInUse);
        }
        if self.loopers.len() >= APP_LOOPER_LIMIT {
            return Err(LineFault::Limit);
        }
        let mut rows = Vec::new(alloc);
        rows.push(RowParts::opened(alloc, form.name.try_clone()?))?;
        self.loopers.push(LooperParts {
            name: form.name,
            capacity: form.capacity,
            quit_refused: false,
            preferred: None,
            common: FilterList::new(alloc),
            rows,
        })?;
        Ok(None)
    }

    fn least_capacity(&self) -> u32
        ensures { result ≡ reads.least_capacity (app_data self.now) }
    {
        if self.loopers.is_empty() { 2 } else { 1 }
    }

    // A line of the last looper.
    fn in_last_looper(
        &mut self,
        alloc: Global,
        keyword: Keyword,
        words: &[Word],
    ) -> Result<Option<Need>, LineFault>
        ensures read { Leaves result (app_data self.new) (reads.in_last_looper (app_data self.old) keyword (texts words.now)) }
        ensures err { OnErr result (app_data self.new ≡ app_data self.old) }
    {
        let Some(looper) = self.loopers.last_mut() else {
            return Err(LineFault::UnknownLine);
        };
        looper.carry(alloc, keyword, words)
    }
}
