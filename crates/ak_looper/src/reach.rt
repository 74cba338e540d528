//! What a looper's thread has beside its own desk: all that it reaches other objects by.
ghost use Rattle.std.specs.Prelude.{◌≡◌, All, false};
ghost use Rattle.std.specs.Arc.{arc_value};
ghost use Rattle.ak_base.specs.Thread.{looper_thread};

use crate::door::Door;
use crate::kept_door::KeptDoor;
use crate::roster::{Roster, find, get_door, leave};
use crate::sending::{ask_there, forward_there, post_there, reply_there, shut_there};
use ak_action::Answer;
use ak_base::{AppWord, NoMemory};
use ak_flatten::Item;
use ak_message::{Address, Message};
use ak_messenger::Hands;
use ak_port::{Port, PortBook};
use ak_roster::{RosterBook, holders_are_told, loopers_are_of_their_teams, seats_tell_strangers};
use ak_turn::Seat;
use std::alloc::Global;
use std::sync::{Arc, Wait};

/// A looper's numbers, its hands, its own port, the doors that it has to other loopers, and the roster. Its own desk is
/// not here: while it has the desk's turn it may use all of this.
#[derive(Drop)]
pub(crate) struct Reach {
    pub(crate) number: u32,
    pub(crate) team: u32,
    pub(crate) first: u32,
    pub(crate) loopers: u32,
    pub(crate) hands: Hands,
    pub(crate) port: Arc<Port>,
    pub(crate) port_seat: Seat<PortBook>,
    // Each with its looper's number; none is its own.
    pub(crate) doors: Vec<(u32, Door)>,
    pub(crate) roster: Arc<Roster>,
    pub(crate) roster_seat: Seat<RosterBook<KeptDoor>>,
    ghost looper: { hands.clock.thread.0 ≡ looper_thread number },
    ghost port_of: { port_seat.lock ≡ arc_value port },
    ghost port_idle: { port_seat.turn ≡ false },
    ghost port_thread: { port_seat.thread ≡ hands.clock.thread.0 },
    ghost roster_of: { roster_seat.lock ≡ arc_value roster },
    ghost roster_idle: { roster_seat.turn ≡ false },
    ghost roster_thread: { roster_seat.thread ≡ hands.clock.thread.0 },
    ghost doors_thread: { All (λ door. door.1.port_seat.thread ≡ hands.clock.thread.0) doors.items },
}

/// The way to a looper's port: its own, or the door at that place.
#[derive(Clone, Copy)]
pub(crate) enum Way {
    Own,
    Through(usize),
}

impl Reach {
    ghost use Rattle.std.specs.Prelude.{◌≡◌, ◌≢◌, ◌==◌, ℕ, true, None, List, IfOk, OnOk, OnErr};
    ghost use Rattle.std.specs.List.{position};
    ghost use Rattle.ak_flatten.specs.declared.item.Duty.TheVariants as duty;
    ghost use Rattle.ak_port.specs.PortMachine.{state_of};
    ghost use Rattle.ak_desk.specs.Answering.{AnswersAsk, AnswersForward, AnswersPost};
    ghost use Rattle.ak_action.specs.Interp.{AnswersFind};
    ghost use Rattle.ak_diary.specs.Looper.{LooperFacts};
    ghost use Rattle.ak_diary.specs.Step.{Step};
    ghost use Rattle.ak_diary.specs.Turns.{LeavesRoster, Shuts};
    ghost use Rattle.ak_diary.specs.Wants.{AsksSo, ForwardsSo, LacksDoor, Opens, PostsSo, ServesFind, owed_to, sent_item};
    ghost use Rattle.ak_looper.specs.Heard.{RepliedSo};
    ghost use Rattle.ak_looper.specs.Stands.{GoesOn, IsStanding, Stands};
    ghost use Rattle.ak_looper.specs.Ways.{IsWay, KeepsReach};

    // Looks for a running application.
    pub(crate) fn find<R: Wait>(&mut self, rt: &R, word: &AppWord) -> Answer
        ensures goes { (l : LooperFacts) (start : ℕ) (so_far : List Step) → Stands l start so_far self.old → GoesOn l start so_far (ServesFind l word.now result) self.new }
        ensures answer { AnswersFind result }
        ensures keeps { KeepsReach self.old self.new }
    {
        find(
            &self.roster,
            rt,
            &mut self.roster_seat,
            &mut self.hands.clock,
            word,
        )
    }

    // Enters that its team no longer runs, unless that was entered before.
    pub(crate) fn leave<R: Wait>(&mut self, rt: &R)
        ensures goes { (l : LooperFacts) (start : ℕ) (so_far : List Step) → Stands l start so_far self.old → GoesOn l start so_far (LeavesRoster l true) self.new }
        ensures keeps { KeepsReach self.old self.new }
    {
        leave(
            &self.roster,
            rt,
            &mut self.roster_seat,
            &mut self.hands.clock,
            self.team,
        );
    }

    // Whether it is its application's own looper.
    pub(crate) fn is_own(&self) -> bool
        ensures { result ≡ (self.now.number == self.now.first) }
    {
        self.number == self.first
    }

    pub(crate) fn place_of(&self, looper: u32) -> Option<usize>
        ensures { result ≡ position (λ door. door.0 == looper) self.now.doors.items }
    {
        self.doors.iter().position(|door| door.0 == looper)
    }

    // The way to the port of that looper. A door that it has not is got at the roster.
    pub(crate) fn way_to<R: Wait>(&mut self, rt: &R, looper: u32) -> Result<Way, NoMemory>
        requires stands { IsStanding self.old }
        ensures goes { (l : LooperFacts) (start : ℕ) (so_far : List Step) → Stands l start so_far self.old → OnOk result (GoesOn l start so_far (Opens l so_far looper) self.new) }
        ensures lacks { (l : LooperFacts) (start : ℕ) (so_far : List Step) → Stands l start so_far self.old → OnErr result (GoesOn l start so_far (LacksDoor l so_far looper) self.new) }
        ensures way { IfOk result (λ way. IsWay looper way self.new) }
        ensures keeps { KeepsReach self.old self.new }
    {
        if looper == self.number {
            return Ok(Way::Own);
        }
        if let Some(place) = self.place_of(looper) {
            return Ok(Way::Through(place));
        }
        self.open(rt, looper)
    }

    // Gets the door of that looper, which it has not.
    fn open<R: Wait>(&mut self, rt: &R, looper: u32) -> Result<Way, NoMemory>
        requires stands { IsStanding self.old }
        requires other { looper ≢ self.old.number }
        requires without { position (λ door. door.0 == looper) self.old.doors.items ≡ None }
        ensures goes { (l : LooperFacts) (start : ℕ) (so_far : List Step) → Stands l start so_far self.old → OnOk result (GoesOn l start so_far (Opens l so_far looper) self.new) }
        ensures lacks { (l : LooperFacts) (start : ℕ) (so_far : List Step) → Stands l start so_far self.old → OnErr result (GoesOn l start so_far (LacksDoor l so_far looper) self.new) }
        ensures way { IfOk result (λ way. IsWay looper way self.new) }
        ensures keeps { KeepsReach self.old self.new }
    {
        holders_are_told();
        seats_tell_strangers::<KeptDoor>();
        loopers_are_of_their_teams();
        self.doors.reserve(1)?;
        let door = get_door(
            &self.roster,
            rt,
            &mut self.roster_seat,
            &mut self.hands.clock,
            looper,
        )?;
        let place = self.doors.len();
        self.doors.push_reserved((looper, door));
        Ok(Way::Through(place))
    }

    // Posts by that way.
    pub(crate) fn post<R: Wait>(
        &mut self,
        alloc: Global,
        rt: &R,
        way: Way,
        to: Address,
        back: Option<Address>,
        message: &Message,
    ) -> Answer
        requires way { IsWay to.looper way self.old }
        ensures goes { (l : LooperFacts) (start : ℕ) (so_far : List Step) → Stands l start so_far self.old → GoesOn l start so_far (PostsSo to message.now (sent_item l.team to (owed_to back) message.now) result) self.new }
        ensures answer { AnswersPost result }
        ensures keeps { KeepsReach self.old self.new }
    {
        let team = self.team;
        let hands = &mut self.hands;
        match way {
            Way::Own => post_there(
                alloc,
                rt,
                hands,
                &self.port,
                &mut self.port_seat,
                team,
                to,
                back,
                message,
            ),
            Way::Through(place) => {
                let door = &mut self.doors[place].1;
                post_there(
                    alloc,
                    rt,
                    hands,
                    &door.port,
                    &mut door.port_seat,
                    team,
                    to,
                    back,
                    message,
                )
            }
        }
    }

    // Asks by that way.
    pub(crate) fn ask<R: Wait>(
        &mut self,
        alloc: Global,
        rt: &R,
        way: Way,
        to: Address,
        message: &Message,
    ) -> Answer
        requires way { IsWay to.looper way self.old }
        ensures goes { (l : LooperFacts) (start : ℕ) (so_far : List Step) → Stands l start so_far self.old → GoesOn l start so_far (AsksSo to message.now (sent_item l.team to duty.None message.now) result) self.new }
        ensures answer { AnswersAsk result }
        ensures keeps { KeepsReach self.old self.new }
    {
        let team = self.team;
        let hands = &mut self.hands;
        match way {
            Way::Own => ask_there(
                alloc,
                rt,
                hands,
                &self.port,
                &mut self.port_seat,
                team,
                to,
                message,
            ),
            Way::Through(place) => {
                let door = &mut self.doors[place].1;
                ask_there(
                    alloc,
                    rt,
                    hands,
                    &door.port,
                    &mut door.port_seat,
                    team,
                    to,
                    message,
                )
            }
        }
    }

    // Writes an item that is sent on, by that way, to that looper.
    pub(crate) fn forward<R: Wait>(&mut self, rt: &R, way: Way, looper: u32, item: Item) -> Answer
        requires way { IsWay looper way self.old }
        ensures goes { (l : LooperFacts) (start : ℕ) (so_far : List Step) → Stands l start so_far self.old → GoesOn l start so_far (ForwardsSo looper item result) self.new }
        ensures answer { AnswersForward result }
        ensures keeps { KeepsReach self.old self.new }
    {
        let hands = &mut self.hands;
        match way {
            Way::Own => forward_there(rt, hands, &self.port, &mut self.port_seat, item),
            Way::Through(place) => {
                let door = &mut self.doors[place].1;
                forward_there(rt, hands, &door.port, &mut door.port_seat, item)
            }
        }
    }

    // Writes an item with a reply, by that way, to that looper. False where it found no memory.
    pub(crate) fn reply<R: Wait>(&mut self, rt: &R, way: Way, looper: u32, item: Item) -> bool
        requires way { IsWay looper way self.old }
        ensures goes { (l : LooperFacts) (start : ℕ) (so_far : List Step) → Stands l start so_far self.old → GoesOn l start so_far (RepliedSo looper item result) self.new }
        ensures keeps { KeepsReach self.old self.new }
    {
        let hands = &mut self.hands;
        match way {
            Way::Own => reply_there(rt, hands, &self.port, &mut self.port_seat, item),
            Way::Through(place) => {
                let door = &mut self.doors[place].1;
                reply_there(rt, hands, &door.port, &mut door.port_seat, item)
            }
        }
    }

    // Shuts the port of that looper, by that way, unless it is shut.
    pub(crate) fn shut<R: Wait>(&mut self, rt: &R, way: Way, looper: u32)
        requires way { IsWay looper way self.old }
        ensures goes { (l : LooperFacts) (start : ℕ) (so_far : List Step) → Stands l start so_far self.old → GoesOn l start so_far (Shuts looper) self.new }
        ensures shut { looper ≡ self.old.number → (state_of self.new.port_seat.front).shut ≡ true }
        ensures stays_shut { (state_of self.old.port_seat.front).shut ≡ true → (state_of self.new.port_seat.front).shut ≡ true }
        ensures keeps { KeepsReach self.old self.new }
    {
        let hands = &mut self.hands;
        match way {
            Way::Own => shut_there(rt, hands, &self.port, &mut self.port_seat),
            Way::Through(place) => {
                let door = &mut self.doors[place].1;
                shut_there(rt, hands, &door.port, &mut door.port_seat);
            }
        }
    }
}
