//! Sessions: threads beside main and the loopers, each of which is opened, and closed before the run ends.
ghost use Rattle.std.specs.Prelude.{◌≡◌, ◌<◌, ◌≤◌, ◌+◌, ◌++◌, ◌∷◌, [], All, None, Some, IfOk, OnErr, length, set, vec_capacity};
ghost use Rattle.ak_describe.specs.Whole.{heads_of};
ghost use Rattle.ak_session.specs.Ready.{IsReady};
ghost use Rattle.ak_run.specs.Doing.{Does, desk_front};
ghost use Rattle.ak_looper.specs.Shared.{AreSame};
ghost use Rattle.ak_run.specs.Recording.{fronts_of, list_at};
ghost use Rattle.ak_run.specs.Running.{IsRunning};
ghost use Rattle.ak_run.specs.Seen.{HasLooked, HasSeen, HasSeenThrough};
ghost use Rattle.ak_run.specs.Sending.{looper_count};
ghost use Rattle.ak_run.specs.Sessions.{HasLocksOf, IsAsBefore, MayClose, session_count, session_limit, sessions_of};

use crate::run::Run;
use ak_base::{NoMemory, ThreadId};
use ak_looper::{Door, KeptDoor, Shared};
use ak_messenger::Hands;
use ak_port::ReplyBook;
use ak_roster::RosterBook;
use ak_session::Session;
use ak_turn::{Clock, new_seats_know, rest_for_ever};
use std::sync::Wait;

impl Run {
    /// How many sessions were opened.
    pub fn sessions(&self) -> u32
        requires running { IsRunning self.now }
        ensures { result ≡ session_count self.now }
    {
        self.slots.sessions.len() as u32
    }

    /// Opens the next session: its thread's number is one more than there were sessions so far, its clock begins at main's time, and it has
    /// seen what main has seen. Makes room for what the end keeps of it. After `NoMemory` the run is as before.
    pub fn open_session(&mut self) -> Result<Session, NoMemory>
        requires running { IsRunning self.old }
        requires few { session_count self.old < session_limit }
        ensures ready { IfOk result (λ session. IsReady session) }
        ensures number { IfOk result (λ session. session.hands.clock.thread.0 ≡ session_count self.old + 1) }
        ensures time { IfOk result (λ session. session.hands.clock.time ≡ self.old.hands.clock.time) }
        ensures locks { IfOk result (λ session. HasLocksOf self.old session) }
        ensures heads { IfOk result (λ session. session.roster_seat.opening ≡ Some (heads_of self.old.apps.items)) }
        ensures opened { IfOk result (λ session. sessions_of self.new ≡ sessions_of self.old ++ (session, None) ∷ []) }
        ensures not_opened { OnErr result (IsAsBefore self.old self.new) }
        ensures did { Does [] self.old self.new }
        ensures running { IsRunning self.new }
        ensures count { looper_count self.new ≡ looper_count self.old }
        ensures apps { self.new.apps ≡ self.old.apps }
    {
        self.slots.reserve()?;
        let shared = self.shared.try_clone()?;
        Ok(self.add_session(shared))
    }

    // The next session, for which there is room. Its thread's seats at what all share are split from main's.
    fn add_session(&mut self, shared: Shared) -> Session
        requires running { IsRunning self.old }
        requires few { session_count self.old < session_limit }
        requires shared { AreSame shared self.old.shared }
        requires room { length self.old.slots.sessions.items < vec_capacity self.old.slots.sessions }
        requires room_for_ways { session_count self.old < vec_capacity self.old.slots.ways }
        ensures ready { IsReady result }
        ensures number { result.hands.clock.thread.0 ≡ session_count self.old + 1 }
        ensures time { result.hands.clock.time ≡ self.old.hands.clock.time }
        ensures locks { HasLocksOf self.old result }
        ensures heads { result.roster_seat.opening ≡ Some (heads_of self.old.apps.items) }
        ensures opened { sessions_of self.new ≡ sessions_of self.old ++ (result, None) ∷ [] }
        ensures did { Does [] self.old self.new }
        ensures running { IsRunning self.new }
        ensures count { looper_count self.new ≡ looper_count self.old }
        ensures apps { self.new.apps ≡ self.old.apps }
    {
        new_seats_know::<ReplyBook>();
        new_seats_know::<RosterBook<KeptDoor>>();
        let thread = ThreadId(self.sessions() + 1);
        let (book_seat, roster_seat) = self.split_seats(thread);
        let Shared { book, roster } = shared;
        let clock = Clock {
            thread,
            time: self.hands.clock.time,
        };
        let session = Session {
            hands: Hands {
                clock,
                book,
                book_seat,
            },
            roster,
            roster_seat,
            doors: Vec::new(*self.members.allocator()),
        };
        self.slots.put(&session);
        session
    }

    /// Closes a session that is open: this is what came of it. The run keeps it for the end. Main sees first all that the session has seen: of
    /// the roster, of the reply book, and through its doors of their ports and desks. So what main enters from now on at one of them stands
    /// behind all that the session entered there. It takes no turn for it.
    pub fn close_session<R: Wait>(&mut self, rt: &R, session: Session)
        requires running { IsRunning self.old }
        requires came { MayClose self.old session }
        ensures closed { (may : MayClose self.old session) → sessions_of self.new ≡ set (sessions_of self.old) may.place (may.opened, Some session) }
        ensures seen { HasSeen self.new self.old.hands.clock.time session }
        ensures did { Does [] self.old self.new }
        ensures running { IsRunning self.new }
        ensures count { looper_count self.new ≡ looper_count self.old }
        ensures apps { self.new.apps ≡ self.old.apps }
    {
        let at_roster = session.roster_seat.seen();
        let at_book = session.hands.book_seat.seen();
        let doors = session.doors.as_slice();
        self.see_roster(rt, at_roster);
        self.see_book(rt, at_book);
        self.see_ways(rt, doors);
        let place = (session.hands.clock.thread.0 - 1) as usize;
        self.slots.sessions[place].closed = Some(session);
    }

    // Sees so many entries of the roster, where it has seen less.
    fn see_roster<R: Wait>(&mut self, rt: &R, count: u64)
        requires running { IsRunning self.old }
        ensures seen { count ≤ length self.new.roster_seat.front }
        ensures looked { HasLooked self.old self.new }
        ensures running { IsRunning self.new }
    {
        self.shared.roster.see(rt, &mut self.roster_seat, count);
    }

    // The same of the reply book.
    fn see_book<R: Wait>(&mut self, rt: &R, count: u64)
        requires running { IsRunning self.old }
        ensures seen { count ≤ length self.new.hands.book_seat.front }
        ensures looked { HasLooked self.old self.new }
        ensures running { IsRunning self.new }
    {
        let hands = &mut self.hands;
        hands.book.see(rt, &mut hands.book_seat, count);
    }

    // Sees at the ports and desks to which these doors lead as much as was seen through them.
    fn see_ways<R: Wait>(&mut self, rt: &R, doors: &[(u32, Door)])
        requires running { IsRunning self.old }
        ensures seen { All (λ door. HasSeenThrough door self.new) doors.now }
        ensures looked { HasLooked self.old self.new }
        ensures running { IsRunning self.new }
    {
        for door in doors {
            self.see_way(rt, door);
        }
    }

    // The same where one of them leads.
    fn see_way<R: Wait>(&mut self, rt: &R, door: &(u32, Door))
        requires running { IsRunning self.old }
        ensures seen { HasSeenThrough door.now self.new }
        ensures looked { HasLooked self.old self.new }
        ensures running { IsRunning self.new }
    {
        let at_port = door.1.port_seat.seen();
        let at_desk = door.1.desk_seat.seen();
        self.see_port(rt, door.0, at_port);
        self.see_desk(rt, door.0, at_desk);
    }

    // Sees so many entries of that looper's port, where it has seen less.
    fn see_port<R: Wait>(&mut self, rt: &R, looper: u32, count: u64)
        requires running { IsRunning self.old }
        ensures seen { count ≤ length (list_at (fronts_of self.new).ports looper) }
        ensures looked { HasLooked self.old self.new }
        ensures running { IsRunning self.new }
    {
        self.rest_past_last(rt, looper);
        let door = &mut self.members[looper as usize].door;
        door.port.see(rt, &mut door.port_seat, count);
    }

    // The same of that looper's desk.
    fn see_desk<R: Wait>(&mut self, rt: &R, looper: u32, count: u64)
        requires running { IsRunning self.old }
        ensures seen { count ≤ length (desk_front self.new looper) }
        ensures looked { HasLooked self.old self.new }
        ensures running { IsRunning self.new }
    {
        self.rest_past_last(rt, looper);
        let door = &mut self.members[looper as usize].door;
        door.desk.see(rt, &mut door.desk_seat, count);
    }

    // Never returns where main started no looper of that number. No session has a door to such a one.
    fn rest_past_last<R: Wait>(&self, rt: &R, looper: u32)
        requires running { IsRunning self.now }
        ensures { looper < looper_count self.now }
    {
        if looper >= self.loopers() {
            rest_for_ever(rt);
        }
    }
}
