//! The lines of a looper.

ghost use Rattle.std.specs.Prelude.{◌≡◌, OnErr};
ghost use Rattle.ak_describe.specs.Answers.{Leaves};
ghost use Rattle.ak_describe.specs.Pass as reads;
ghost use Rattle.ak_describe.specs.Seen.{looper_data};
ghost use Rattle.ak_describe.specs.Words.{texts};

use crate::fault::LineFault;
use crate::form::filter::filter_form;
use crate::form::heads::hook_form;
use crate::keyword::Keyword;
use crate::named::{Need, need_of_filter};
use crate::parts::{LooperParts, RowParts};
use crate::words::only_name;
use ak_handler::HANDLER_LIMIT;
use ak_input::Word;
use std::alloc::Global;

impl LooperParts {
    /// Whether a line that begins so, and that is of a looper or a handler, may stand behind its lines.
    pub(crate) fn may_follow(&self, keyword: Keyword) -> bool
        ensures { result ≡ reads.may_follow (looper_data self.now) keyword }
    {
        match keyword {
            Keyword::Hook => self.is_before_handlers() && !self.quit_refused,
            Keyword::Prefer => self.is_before_handlers() && self.preferred.is_none(),
            Keyword::Common => self.is_before_handlers(),
            Keyword::Next => !self.is_before_handlers() && self.has_no_next(),
            Keyword::Handler | Keyword::Suite | Keyword::Filter | Keyword::Property | Keyword::On =>
                true,
            Keyword::App
            | Keyword::Looper
            | Keyword::Element
            | Keyword::Reply
            | Keyword::Post
            | Keyword::Ask
            | Keyword::Set
            | Keyword::Add
            | Keyword::Drop
            | Keyword::Quit => false,
        }
    }

    // Of the handler that is open no next one is given.
    fn has_no_next(&self) -> bool
        ensures { result ≡ reads.has_no_next (looper_data self.now) }
    {
        match self.rows.last() {
            Some(row) => row.next.is_none(),
            None => false,
        }
    }

    /// What the further words of such a line, or of an element or an action, add.
    pub(crate) fn carry(
        &mut self,
        alloc: Global,
        keyword: Keyword,
        words: &[Word],
    ) -> Result<Option<Need>, LineFault>
        ensures read { Leaves result (looper_data self.new) (reads.carry_in_looper (looper_data self.old) keyword (texts words.now)) }
        ensures err { OnErr result (looper_data self.new ≡ looper_data self.old) }
    {
        match keyword {
            Keyword::Hook => self.hook_line(words),
            Keyword::Prefer => self.prefer_line(alloc, words),
            Keyword::Common => self.common_line(alloc, words),
            Keyword::Handler => self.handler_line(alloc, words),
            _ => self.in_last_row(alloc, keyword, words),
        }
    }

    // The quit hook refuses.
    fn hook_line(&mut self, words: &[Word]) -> Result<Option<Need>, LineFault>
        ensures read { Leaves result (looper_data self.new) (reads.hook_line (looper_data self.old) (texts words.now)) }
        ensures err { OnErr result (looper_data self.new ≡ looper_data self.old) }
    {
        if !hook_form(words) {
            return Err(LineFault::BadValue);
        }
        self.quit_refused = true;
        Ok(None)
    }

    // The preferred handler.
    fn prefer_line(&mut self, alloc: Global, words: &[Word]) -> Result<Option<Need>, LineFault>
        ensures read { Leaves result (looper_data self.new) (reads.prefer_line (looper_data self.old) (texts words.now)) }
        ensures err { OnErr result (looper_data self.new ≡ looper_data self.old) }
    {
        let name = only_name(alloc, words)?;
        let need = Need::Handler(name.try_clone()?);
        self.preferred = Some(name);
        Ok(Some(need))
    }

    // A filter of all its handlers.
    fn common_line(&mut self, alloc: Global, words: &[Word]) -> Result<Option<Need>, LineFault>
        ensures read { Leaves result (looper_data self.new) (reads.common_line (looper_data self.old) (texts words.now)) }
        ensures err { OnErr result (looper_data self.new ≡ looper_data self.old) }
    {
        let filter = filter_form(alloc, words)?;
        let need = need_of_filter(&filter)?;
        self.common.push(filter)?;
        Ok(need)
    }

    // A handler begins.
    fn handler_line(&mut self, alloc: Global, words: &[Word]) -> Result<Option<Need>, LineFault>
        ensures read { Leaves result (looper_data self.new) (reads.handler_line (looper_data self.old) (texts words.now)) }
        ensures err { OnErr result (looper_data self.new ≡ looper_data self.old) }
    {
        let name = only_name(alloc, words)?;
        if self.row_named(name.as_bytes()).is_some() {
            return Err(LineFault::NameInUse);
        }
        if self.rows.len() >= HANDLER_LIMIT {
            return Err(LineFault::Limit);
        }
        self.rows.push(RowParts::opened(alloc, name))?;
        Ok(None)
    }

    // A line of the last handler.
    fn in_last_row(
        &mut self,
        alloc: Global,
        keyword: Keyword,
        words: &[Word],
    ) -> Result<Option<Need>, LineFault>
        ensures read { Leaves result (looper_data self.new) (reads.in_last_row (looper_data self.old) keyword (texts words.now)) }
        ensures err { OnErr result (looper_data self.new ≡ looper_data self.old) }
    {
        let Some(row) = self.rows.last_mut() else {
            return Err(LineFault::UnknownLine);
        };
        row.carry(alloc, keyword, words)
    }
}
