//! The rule of the table under a lock, and what each step on it tells.
ghost use Rattle.std.specs.Prelude.{ℕ};

use crate::book::Book;
use crate::view::View;
use atomic_table::{Join, Play, Seat, Shared, Split, Table, TableRule};
use std::alloc::Global;
use std::marker::{Brand, PhantomData};
use std::snapshot::Snapshot;

/// What the table is told when it is made. No value of it is kept.
#[derive(Drop)]
pub struct Start<B> {
    /// The book as it is put in.
    pub book: Snapshot<B>,
    /// The number of the first seat's thread.
    pub thread: u32,
}

/// The rule of a lock's table: `Kept` says what holds between any two steps.
pub struct TurnRule<B> {
    book: PhantomData<B>,
}

pub(crate) type Place<B> = Seat<Option<B>, View<<B as Book>::Opening, <B as Book>::Entry>>;

pub(crate) type Common<B> = Shared<
    Option<B>,
    View<<B as Book>::Opening, <B as Book>::Entry>,
    Start<B>,
    TurnRule<B>,
>;

pub(crate) type Board<B> = Table<
    Option<B>,
    View<<B as Book>::Opening, <B as Book>::Entry>,
    Start<B>,
    TurnRule<B>,
    Global,
>;

impl<B: Book> TableRule<Option<B>, View<B::Opening, B::Entry>, Start<B>> for TurnRule<B> {
    ghost use Rattle.ak_turn.specs.Entries.{maker};
    ghost use Rattle.ak_turn.specs.Rule.{Kept};
    ghost use Rattle.ak_turn.specs.Steps.{first_view};

    ghost holds = { λ _. Kept B.opening B.entries B.at_rest (maker B.plain B.by) };

    ghost first = { λ start. first_view (maker B.plain B.by) (B.opening start.book.value) (B.entries start.book.value) start.thread };
}

pub(crate) struct Draw;

impl<B: Book> Play<Option<B>, View<B::Opening, B::Entry>> for Draw {
    ghost use Rattle.ak_turn.specs.Steps.{drew};

    ghost then = { drew };
}

pub(crate) struct Look<B> {
    book: PhantomData<B>,
}

impl<B: Book> Play<Option<B>, View<B::Opening, B::Entry>> for Look<B> {
    ghost use Rattle.ak_turn.specs.Entries.{maker};
    ghost use Rattle.ak_turn.specs.Steps.{looked};

    ghost then = { looked B.opening B.entries B.at_rest (maker B.plain B.by) };
}

pub(crate) struct Glance<B> {
    book: PhantomData<B>,
}

impl<B: Book> Play<Option<B>, View<B::Opening, B::Entry>> for Glance<B> {
    ghost use Rattle.ak_turn.specs.Entries.{maker};
    ghost use Rattle.ak_turn.specs.Steps.{glanced};

    ghost then = { glanced (maker B.plain B.by) };
}

pub(crate) struct Add<B> {
    book: PhantomData<B>,
}

impl<B: Book> Play<Option<B>, View<B::Opening, B::Entry>> for Add<B> {
    ghost use Rattle.ak_turn.specs.Entries.{maker};
    ghost use Rattle.ak_turn.specs.Steps.{added};

    ghost then = { added B.opening B.entries B.at_rest (maker B.plain B.by) };
}

pub(crate) struct Pass;

impl<B: Book> Play<Option<B>, View<B::Opening, B::Entry>> for Pass {
    ghost use Rattle.ak_turn.specs.Steps.{passed};

    ghost then = { passed };
}

/// The number of a new thread. Each call picks it.
pub(crate) trait Newcomer {
    ghost thread: { ℕ };
}

impl Newcomer for Brand {
    ghost thread = { 0 };
}

/// A new seat that is not the head.
pub(crate) struct Plain<N> {
    newcomer: PhantomData<N>,
}

impl<O, L, N: Newcomer> Split<View<O, L>> for Plain<N> {
    ghost use Rattle.std.specs.Prelude.{None};
    ghost use Rattle.ak_turn.specs.Steps.{titled, names_with, newcomer};

    ghost left = { λ v. titled (names_with v.names N.thread) v };

    ghost right = { λ v. newcomer N.thread None v };
}

/// A new seat that is the head from then on.
pub(crate) struct Head<N> {
    newcomer: PhantomData<N>,
}

impl<O, L, N: Newcomer> Split<View<O, L>> for Head<N> {
    ghost use Rattle.std.specs.Prelude.{None};
    ghost use Rattle.ak_turn.specs.Steps.{titled, names_with, newcomer};

    ghost left = { λ v. titled None v };

    ghost right = { λ v. newcomer N.thread (names_with v.names N.thread) v };
}

pub(crate) struct Both;

impl<O, L> Join<View<O, L>> for Both {
    ghost use Rattle.ak_turn.specs.Steps.{joined_view, spent_view};

    ghost both = { joined_view };

    ghost spent = { spent_view };
}
