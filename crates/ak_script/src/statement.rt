//! What a statement is.
ghost use Rattle.std.proofs.Props.{props};
ghost use Rattle.std.specs.Prelude.{◌≤◌, length, IfSome, IsTrue};
ghost use Rattle.ak_desk.specs.Plain.{is_plain_edit};
ghost use Rattle.ak_flatten.specs.Limits.{flat_limit};
ghost use Rattle.ak_flatten.specs.Spelling.{spelling};
ghost use Rattle.ak_input.specs.Written.{is_launched, is_looked_up};
ghost use Rattle.ak_roster.specs.Answers.{IsWord};
ghost use Rattle.ak_script.specs.Facts.{word-prop};
ghost use Rattle.ak_script.specs.Limits.{session_limit};

use ak_base::AppWord;
use ak_desk::Edit;
use ak_message::{Message, Target};

/// Launches the first application that the word fits. (The Be Book, BRoster: Launch().)
#[derive(Drop)]
pub struct Launch {
    /// A path or a signature.
    pub word: AppWord,
    /// What its own looper is told of its arguments, where there are some. Its flat text has at most 4,096 bytes.
    pub arguments: Option<Message>,
    ghost word_is: { IsWord word } by { word-prop word },
    ghost form: { IsTrue (is_launched word) },
    ghost fits: { IfSome arguments (λ message. length (spelling message) ≤ flat_limit) } by { Prim.hlevel props },
}

/// Asks the first looper of the least running team that the word fits, and waits for the reply. (`hey`)
#[derive(Drop)]
pub struct Hey {
    pub app: AppWord,
    /// Its flat text has at most 4,096 bytes.
    pub message: Message,
    ghost form: { IsTrue (is_looked_up app) },
    ghost fits: { length (spelling message) ≤ flat_limit },
}

/// Posts to a looper of the least running team that the word fits. (The Be Book, BMessenger: SendMessage().)
#[derive(Drop)]
pub struct Post {
    pub app: AppWord,
    /// The place of the looper in its application, counted from 0.
    pub looper: u32,
    pub target: Target,
    pub dropped: bool,
    /// Whether it waits for room.
    pub waits: bool,
    /// Its flat text has at most 4,096 bytes.
    pub message: Message,
    ghost form: { IsTrue (is_looked_up app) },
    ghost fits: { length (spelling message) ≤ flat_limit },
}

/// Locks a looper of the least running team that the word fits, and edits its handlers.
#[derive(Drop)]
pub struct Lock {
    pub app: AppWord,
    /// The place of the looper in its application, counted from 0.
    pub looper: u32,
    /// The name of a new handler is a word.
    pub edit: Edit,
    ghost form: { IsTrue (is_looked_up app) },
    ghost edit_is: { IsTrue (is_plain_edit edit) },
}

/// The most sessions of a block.
pub const SESSION_LIMIT: usize = 8;

/// One line of a session.
#[derive(Drop)]
pub enum SessionLine {
    Hey(Hey),
    Post(Post),
    Lock(Lock),
}

/// What one session carries out, in order.
#[derive(Drop)]
pub struct SessionLines {
    /// One or more.
    pub lines: Vec<SessionLine>,
    ghost some: { 1 ≤ length lines.items },
}

/// A block: sessions that run side by side.
#[derive(Drop)]
pub struct Together {
    /// 1 to 8.
    pub sessions: Vec<SessionLines>,
    ghost some: { 1 ≤ length sessions.items },
    ghost few: { length sessions.items ≤ session_limit },
}

/// One statement of a script.
#[derive(Drop)]
pub enum Statement {
    Launch(Launch),
    Hey(Hey),
    Post(Post),
    Lock(Lock),
    Together(Together),
}
