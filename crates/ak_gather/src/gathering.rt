//! The end of a run: threads are joined, what their seats know is taken in, and the history of each object is kept.
ghost use Rattle.std.specs.Prelude.{◌≡◌, ◌≤◌, ◌+◌, ℕ, suc, [], ◌++◌, ◌∷◌, List, All, length, map, false, vec_capacity};
ghost use Rattle.std.specs.Arc.{arc_value};
ghost use Rattle.ak_turn.specs.Seats.{joined_seat};
ghost use Rattle.ak_roster.specs.declared.head.AppHead.{AppHead};
ghost use Rattle.ak_looper.specs.declared.shared.Shared.{Shared};
ghost use Rattle.ak_gather.specs.Gathering.{AreBooksOf, AreGaining, AreHeadsIn, AreKeptIn, AreTakenIn, AreWaysIn, GoesOnKnowing, HasRoomFor, HasTakenAt, HoldsNothing, IsAt, IsBookOf, IsDeskOf, IsJoined, IsNoHead, IsPortOf, IsRosterOf, IsTakenIn, IsWayIn, is_short, joined_desk_front, joined_front, short_of};
ghost use Rattle.ak_gather.specs.Members.{member_desk_front, member_front, IsMember};

use crate::member::Member;
use ak_desk::Desk;
use ak_looper::{Door, EndKind, KeptDoor, LooperEnd, LooperJob, Roster};
use ak_messenger::Hands;
use ak_port::{Port, PortBook, ReplyBook};
use ak_roster::RosterBook;
use ak_turn::{Seat, TurnLock};
use std::snapshot::Snapshot;
use std::sync::Wait;
use std::thread::Threads;

/// A looper whose thread was joined. Main's door to it knows what the thread's own knew.
#[derive(Drop)]
pub struct Joined {
    /// Its number.
    pub number: u32,
    /// Main's door to it.
    pub door: Door,
    /// How it ended.
    pub kind: EndKind,
    /// What it was started with.
    pub job: Snapshot<LooperJob>,
    /// What it gave back.
    pub end: Snapshot<LooperEnd>,
}

/// The loopers whose threads were joined, by their numbers.
#[derive(Drop)]
pub struct AllJoined {
    /// The loopers, in order.
    pub loopers: Vec<Joined>,
    /// The doors that each gave back.
    pub ways: Vec<Vec<(u32, Door)>>,
    /// The numbers of those that found no memory.
    pub short: Vec<u32>,
}

fn is_short(kind: EndKind) -> bool
    ensures { result ≡ is_short kind }
{
    match kind {
        EndKind::NoMemory => true,
        EndKind::Quit | EndKind::TeamClosed => false,
    }
}

// Its number, where it found no memory.
fn note_short(short: &mut Vec<u32>, looper: &Joined)
    requires room { length short.old.items + 1 ≤ vec_capacity short.old }
    ensures noted { short.new.items ≡ short.old.items ++ short_of (looper.now ∷ []) }
    ensures room { vec_capacity short.new ≡ vec_capacity short.old }
{
    if is_short(looper.kind) {
        short.push_reserved(looper.number);
    }
}

impl AllJoined {
    // One looper more, with the doors that it gave back.
    fn put(&mut self, looper: Joined, ways: Vec<(u32, Door)>)
        requires room { (n : ℕ) × HasRoomFor (suc n) self.old }
        ensures loopers { self.new.loopers.items ≡ self.old.loopers.items ++ looper ∷ [] }
        ensures ways { self.new.ways.items ≡ self.old.ways.items ++ ways ∷ [] }
        ensures short { self.new.short.items ≡ self.old.short.items ++ short_of (looper ∷ []) }
        ensures room { (n : ℕ) → HasRoomFor (suc n) self.old → HasRoomFor n self.new }
    {
        note_short(&mut self.short, &looper);
        self.loopers.push_reserved(looper);
        self.ways.push_reserved(ways);
    }
}

// Main's seats at a port and a desk take in what those know.
fn take_in(door: &mut Door, port_seat: Seat<PortBook>, desk_seat: Seat<Desk>)
    requires port { (port_seat.lock ≡ door.old.port_seat.lock) × (port_seat.turn ≡ false) }
    requires desk { (desk_seat.lock ≡ door.old.desk_seat.lock) × (desk_seat.turn ≡ false) }
    ensures port { door.new.port_seat ≡ joined_seat door.old.port_seat port_seat }
    ensures desk { door.new.desk_seat ≡ joined_seat door.old.desk_seat desk_seat }
{
    door.port.join(&mut door.port_seat, port_seat);
    door.desk.join(&mut door.desk_seat, desk_seat);
}

/// Joins the thread of one looper, and takes in what its seats know. With it come the doors that it gave back.
pub(crate) fn join_one<R: Threads>(
    rt: &R,
    member: Member,
    roster: &Roster,
    roster_seat: &mut Seat<RosterBook<KeptDoor>>,
    book: &TurnLock<ReplyBook>,
    book_seat: &mut Seat<ReplyBook>,
) -> (Joined, Vec<(u32, Door)>)
    requires roster_of { roster_seat.old.lock ≡ roster.now }
    requires roster_idle { roster_seat.old.turn ≡ false }
    requires book_of { book_seat.old.lock ≡ book.now }
    requires book_idle { book_seat.old.turn ≡ false }
    requires member { (heads : List AppHead) × (shared : Shared) × IsMember heads shared roster_seat.old member × (arc_value shared.roster ≡ roster.now) × (arc_value shared.book ≡ book.now) }
    ensures joined { (heads : List AppHead) (shared : Shared) → IsMember heads shared roster_seat.old member → IsJoined heads roster_seat.new book_seat.new result.0 }
    ensures no_head { (heads : List AppHead) (shared : Shared) → IsMember heads shared roster_seat.old member → IsNoHead result.0 }
    ensures ways { result.1 ≡ result.0.end.value.doors }
    ensures number { result.0.number ≡ member.number }
    ensures job { result.0.job.value ≡ member.job.value }
    ensures front { joined_front result.0 ≡ member_front member }
    ensures desk_front { joined_desk_front result.0 ≡ member_desk_front member }
    ensures roster { GoesOnKnowing roster_seat.old roster_seat.new }
    ensures book { GoesOnKnowing book_seat.old book_seat.new }
{
    let Member {
        number,
        mut door,
        job,
        life,
    } = member;
    let end = life.end(rt);
    let snapshot = Snapshot::of(&end);
    let LooperEnd {
        number: _,
        hands,
        own,
        doors,
        roster_seat: at_roster,
        kind,
    } = end;
    let Hands {
        clock: _,
        book: _,
        book_seat: at_book,
    } = hands;
    let Door {
        port: _,
        port_seat,
        desk: _,
        desk_seat,
    } = own;
    roster.join(roster_seat, at_roster);
    book.join(book_seat, at_book);
    take_in(&mut door, port_seat, desk_seat);
    let looper = Joined {
        number,
        door,
        kind,
        job,
        end: snapshot,
    };
    (looper, doors)
}

/// Joins all, in order.
pub fn join_all<R: Threads>(
    rt: &R,
    members: Vec<Member>,
    roster: &Roster,
    roster_seat: &mut Seat<RosterBook<KeptDoor>>,
    book: &TurnLock<ReplyBook>,
    book_seat: &mut Seat<ReplyBook>,
    all: &mut AllJoined,
)
    requires roster_of { roster_seat.old.lock ≡ roster.now }
    requires roster_idle { roster_seat.old.turn ≡ false }
    requires book_of { book_seat.old.lock ≡ book.now }
    requires book_idle { book_seat.old.turn ≡ false }
    requires members { (heads : List AppHead) × (shared : Shared) × All (IsMember heads shared roster_seat.old) members.items × (arc_value shared.roster ≡ roster.now) × (arc_value shared.book ≡ book.now) }
    requires none { HoldsNothing all.old }
    requires room { HasRoomFor (length members.items) all.old }
    ensures joined { (heads : List AppHead) (shared : Shared) → All (IsMember heads shared roster_seat.old) members.items → All (IsJoined heads roster_seat.new book_seat.new) all.new.loopers.items }
    ensures no_heads { (heads : List AppHead) (shared : Shared) → All (IsMember heads shared roster_seat.old) members.items → All IsNoHead all.new.loopers.items }
    ensures ways { map (λ (j : Joined). j.end.value.doors) all.new.loopers.items ≡ all.new.ways.items }
    ensures short { all.new.short.items ≡ short_of all.new.loopers.items }
    ensures numbers { map (λ (j : Joined). j.number) all.new.loopers.items ≡ map (λ (m : Member). m.number) members.items }
    ensures jobs { map (λ (j : Joined). j.job.value) all.new.loopers.items ≡ map (λ (m : Member). m.job.value) members.items }
    ensures fronts { map joined_front all.new.loopers.items ≡ map member_front members.items }
    ensures desk_fronts { map joined_desk_front all.new.loopers.items ≡ map member_desk_front members.items }
    ensures roster { GoesOnKnowing roster_seat.old roster_seat.new }
    ensures book { GoesOnKnowing book_seat.old book_seat.new }
{
    for member in members {
        let (looper, ways) = join_one(rt, member, roster, roster_seat, book, book_seat);
        all.put(looper, ways);
    }
}

// Main's door to the looper at that place takes in what those seats know.
fn take_at(
    loopers: &mut Vec<Joined>,
    place: usize,
    port_seat: Seat<PortBook>,
    desk_seat: Seat<Desk>,
)
    requires there { IsAt loopers.old.items place port_seat.lock desk_seat.lock }
    requires port { port_seat.turn ≡ false }
    requires desk { desk_seat.turn ≡ false }
    ensures { HasTakenAt place port_seat desk_seat loopers.old.items loopers.new.items }
{
    take_in(&mut loopers[place].door, port_seat, desk_seat);
}

/// Main's doors take in those that the roster kept, in order. Main's seats are the heads from then on.
pub fn take_kept(loopers: &mut Vec<Joined>, kept: Vec<KeptDoor>)
    requires there { AreKeptIn loopers.old.items 0 kept.items }
    requires no_heads { All IsNoHead loopers.old.items }
    ensures gaining { AreGaining loopers.old.items loopers.new.items }
    ensures heads { AreHeadsIn loopers.new.items 0 kept.items }
{
    let mut place = 0;
    for door in kept {
        let KeptDoor {
            port: _,
            port_seat,
            desk: _,
            desk_seat,
        } = door;
        take_at(loopers, place, port_seat, desk_seat);
        place += 1;
    }
}

// Main's doors take in those that one looper gave back.
fn take_ways(loopers: &mut Vec<Joined>, ways: Vec<(u32, Door)>)
    requires there { All (IsWayIn loopers.old.items) ways.items }
    ensures gaining { AreGaining loopers.old.items loopers.new.items }
    ensures taken { All (IsTakenIn loopers.new.items) ways.items }
{
    for (number, way) in ways {
        let Door {
            port: _,
            port_seat,
            desk: _,
            desk_seat,
        } = way;
        take_at(loopers, number as usize, port_seat, desk_seat);
    }
}

/// Main's doors take in those that the loopers gave back.
pub fn take_all_ways(loopers: &mut Vec<Joined>, all: Vec<Vec<(u32, Door)>>)
    requires there { All (AreWaysIn loopers.old.items) all.items }
    ensures gaining { AreGaining loopers.old.items loopers.new.items }
    ensures taken { All (AreTakenIn loopers.new.items) all.items }
{
    for ways in all {
        take_ways(loopers, ways);
    }
}

// The whole book of a port.
fn keep_port<R: Wait>(rt: &R, port: &Port, mut seat: Seat<PortBook>) -> PortBook
    requires of { seat.lock ≡ port.now }
    requires idle { seat.turn ≡ false }
    ensures { IsPortOf seat result }
{
    let turn = port.lock(rt, &mut seat);
    let kept = turn.keep();
    // Reading the taker shows that the list is a port's.
    let _ = kept.taker();
    kept
}

// The whole desk.
fn keep_desk<R: Wait>(rt: &R, desk: &TurnLock<Desk>, mut seat: Seat<Desk>) -> Desk
    requires of { seat.lock ≡ desk.now }
    requires idle { seat.turn ≡ false }
    ensures { IsDeskOf seat result }
{
    let turn = desk.lock(rt, &mut seat);
    let kept = turn.keep();
    // Reading the handlers shows that the list is a desk's.
    let _ = kept.state();
    kept
}

/// The whole reply book.
pub fn keep_book<R: Wait>(
    rt: &R,
    book: &TurnLock<ReplyBook>,
    mut seat: Seat<ReplyBook>,
) -> ReplyBook
    requires of { seat.lock ≡ book.now }
    requires idle { seat.turn ≡ false }
    ensures { IsBookOf seat result }
{
    let turn = book.lock(rt, &mut seat);
    let kept = turn.keep();
    // Reading the number of slots shows that the list is a reply book's.
    let _ = kept.slots();
    kept
}

/// The whole roster.
pub fn keep_roster<R: Wait>(
    rt: &R,
    roster: &Roster,
    mut seat: Seat<RosterBook<KeptDoor>>,
) -> RosterBook<KeptDoor>
    requires of { seat.lock ≡ roster.now }
    requires idle { seat.turn ≡ false }
    ensures { IsRosterOf seat result }
{
    let turn = roster.lock(rt, &mut seat);
    let kept = turn.keep();
    // Reading the descriptions shows that the list is a roster's.
    let _ = kept.heads();
    kept
}

/// The ports and the desks of all.
pub fn keep_all<R: Wait>(
    rt: &R,
    joined: Vec<Joined>,
    ports: &mut Vec<PortBook>,
    desks: &mut Vec<Desk>,
)
    requires no_ports { ports.old.items ≡ [] }
    requires no_desks { desks.old.items ≡ [] }
    requires room_for_ports { length joined.items ≤ vec_capacity ports.old }
    requires room_for_desks { length joined.items ≤ vec_capacity desks.old }
    ensures { AreBooksOf joined.items ports.new.items desks.new.items }
{
    for looper in joined {
        let Door {
            port,
            port_seat,
            desk,
            desk_seat,
        } = looper.door;
        ports.push_reserved(keep_port(rt, &port, port_seat));
        desks.push_reserved(keep_desk(rt, &desk, desk_seat));
    }
}
