//! The end of a run.

use crate::answers::Ended;
use crate::run::Run;
use crate::slots::join_slots;
use ak_base::Items;
use ak_diary::Histories;
use ak_gather::{AllJoined, join_all, keep_all, keep_book, keep_roster, take_all_ways, take_kept};
use ak_headline::{each_waiting_send_got_one_reply, runs_are_accounted, runs_go_by_rule};
use ak_looper::{KeptDoor, Shared};
use ak_messenger::Hands;
use ak_roster::{holders_are_told, loopers_are_of_their_teams, seats_tell_strangers};
use std::sync::Wait;
use std::thread::Threads;

impl Run {
    ghost use Rattle.std.specs.Prelude.{◌≡◌, List, true};
    ghost use Rattle.ak_base.specs.Thread.{main_thread};
    ghost use Rattle.ak_describe.specs.Whole.{heads_of};
    ghost use Rattle.ak_diary.specs.Step.{Step};
    ghost use Rattle.ak_headline.specs.Headline.{EachGotOneReply, EachLooper, IsAccounted, IsByRule};
    ghost use Rattle.ak_headline.specs.Run.{HasDone, IsRunWith};
    ghost use Rattle.ak_run.specs.AtEnd.{DoneAtEnd, SessionsDone};
    ghost use Rattle.ak_run.specs.Doing.{HasDoneSoFar, IsRecordedAtDesks};
    ghost use Rattle.ak_run.specs.Ending.{EndsAs};
    ghost use Rattle.ak_gather.specs.Ending.{IsRunOfLoopers};
    ghost use Rattle.ak_run.specs.Opened.{WereOpened};
    ghost use Rattle.ak_run.specs.Recording.{IsRecorded, fronts_of};
    ghost use Rattle.ak_run.specs.Running.{IsRunning};
    ghost use Rattle.ak_run.specs.Sessions.{all_closed, session_count};

    /// Ends what runs, joins all threads and keeps the histories, which go on from what main had seen. For each looper that was started
    /// there are a port and a desk. Each looper's diary has all that its thread did at the roster, the reply book, every port and every
    /// desk, and main's diary all that main did; at the roster, the ports and the reply book no other thread made an entry. The messages
    /// that a looper dispatched, followed by those that it left, are exactly those that its port accepted, in order and each once; each was
    /// dispatched as the rules say for the handlers at that moment; and each accepted waiting send got one reply, the one that the rules
    /// make for it. Each looper's desk was opened as its plan says in the application that was launched. Takes no memory.
    pub fn end<R: Threads + Wait>(mut self, rt: &R) -> Ended
        requires running { IsRunning self }
        requires closed { all_closed self ≡ true }
        ensures apps { result.apps.items ≡ self.apps.items }
        ensures run { IsRunWith (session_count self) (heads_of self.apps.items) result.short result.histories }
        ensures accepted { EachLooper result.histories IsAccounted }
        ensures dispatched { EachLooper result.histories IsByRule }
        ensures answered { EachGotOneReply result.short result.histories }
        ensures opened { WereOpened self.apps.items result.histories }
        ensures same { EndsAs self result.histories }
        ensures did { (steps : List Step) → HasDoneSoFar steps self → DoneAtEnd (heads_of self.apps.items) steps result.histories }
        ensures sessions { SessionsDone self result.histories }
    {
        runs_are_accounted();
        runs_go_by_rule();
        each_waiting_send_got_one_reply();
        self.leave_all(rt);
        self.gathered(rt)
    }

    // Joins all threads and keeps the histories.
    fn gathered<R: Threads + Wait>(self, rt: &R) -> Ended
        requires running { IsRunning self }
        requires closed { all_closed self ≡ true }
        ensures run { IsRunOfLoopers (heads_of self.apps.items) result.short (session_count self) result.histories }
        ensures apps { result.apps ≡ self.apps }
        ensures done { (steps : List Step) → IsRecorded steps (fronts_of self) → IsRecordedAtDesks steps self → HasDone result.histories main_thread steps }
        ensures opened { WereOpened self.apps.items result.histories }
        ensures same { EndsAs self result.histories }
        ensures sessions { SessionsDone self result.histories }
    {
        holders_are_told();
        loopers_are_of_their_teams();
        seats_tell_strangers::<KeptDoor>();
        let Run {
            apps,
            hands,
            shared,
            mut roster_seat,
            members,
            slots,
            mut joined,
            mut ports,
            mut desks,
        } = self;
        let Hands {
            clock: _,
            book: _,
            mut book_seat,
        } = hands;
        let Shared { book, roster } = shared;
        join_all(
            rt,
            members,
            &roster,
            &mut roster_seat,
            &book,
            &mut book_seat,
            &mut joined,
        );
        let doors = join_slots(slots, &roster, &mut roster_seat, &book, &mut book_seat);
        let AllJoined {
            mut loopers,
            ways,
            short,
        } = joined;
        let mut roster = keep_roster(rt, &roster, roster_seat);
        take_kept(&mut loopers, roster.take_doors());
        take_all_ways(&mut loopers, ways);
        take_all_ways(&mut loopers, doors);
        keep_all(rt, loopers, &mut ports, &mut desks);
        let book = keep_book(rt, &book, book_seat);
        Ended {
            apps,
            histories: Histories {
                roster: roster.into_entries(),
                book,
                ports,
                desks,
            },
            short: Items::from_vec(short),
        }
    }
}
