//! A run for a test, and what main heard in it, told line by line: what a scene says is carried out here, and all that tests
//! ask of a run they ask here.

ghost use Rattle.std.specs.Prelude.{◌≡◌, None, IfOk};
ghost use Rattle.ak_run.specs.Running.{IsRunning};

use crate::accounts::{tell_closing, tell_left, tell_tries};
use crate::gates::{AnyGate, Hold, Watch};
use crate::lists::{tell_book, tell_desk, tell_port, tell_roster, tell_slots_of};
use crate::scene::{Act, At, Scene, Tell};
use crate::telling::put_message;
use ak_base::{AppWord, Bytes, Text};
use ak_describe::{descriptions_are_whole, read_description};
use ak_desk::{Desk, Edit};
use ak_diary::Histories;
use ak_input::{read_message, split_lines, split_words};
use ak_message::{Message, Target};
use ak_messenger::{Envelope, Reply, SendFault};
use ak_outside::PlannedSpawner;
use ak_port::PortBook;
use ak_run::{LaunchAnswer, Run};
use run_lists::{Account, Told, account_of, tell, tell_account};
use std::alloc::Global;
use std::sync::Wait;
use std::test::Fail;
use std::thread::{Threads, sleep};
use std::time::{Clock, Duration};

/// Asks for the property `Count`.
pub const GET_COUNT: &[u8] = b"'PGET' specifiers=MSGG:{0x00000001 property=\"Count\"}";

/// Asks for the property `Total`.
pub const GET_TOTAL: &[u8] = b"'PGET' specifiers=MSGG:{0x00000001 property=\"Total\"}";

// A run, and what main heard in it.
#[derive(Drop)]
struct Stage {
    alloc: Global,
    run: Run,
    gate: AnyGate,
    spawner: PlannedSpawner,
    // How many notes were posted.
    notes: u64,
    told: Bytes,
}

// From no team, to the handler with that token or to the preferred one.
fn envelope(target: Target) -> Envelope
    ensures popped { result.popped ≡ 0 }
    ensures back { result.back ≡ None }
{
    Envelope {
        target,
        team: 0,
        dropped: false,
        popped: 0,
        back: None,
    }
}

// The message whose text that is, if it is not long.
fn message_of(alloc: Global, line: &[u8]) -> Result<Message, Fail> {
    if line.len() > 65_536 {
        return Err("a long line".into());
    }
    let words = split_words(alloc, line)?;
    Ok(read_message(alloc, words.as_slice())?)
}

fn name_of(fault: SendFault) -> &'static [u8] {
    match fault {
        SendFault::TooLong => b"K_TOO_LONG",
        SendFault::NoMemory => b"B_NO_MEMORY",
        SendFault::BadPort => b"B_BAD_PORT_ID",
        SendFault::Spent => b"K_SPENT",
        SendFault::WouldBlock => b"B_WOULD_BLOCK",
    }
}

// What a launch came to.
fn tell_launch(out: &mut Bytes, answer: LaunchAnswer) -> Told {
    out.extend(b"launch:")?;
    match answer {
        LaunchAnswer::Started { team, .. } => tell(out, b"started", u64::from(team))?,
        LaunchAnswer::Running { team, .. } => tell(out, b"running", u64::from(team))?,
        LaunchAnswer::NotFound { .. } => out.extend(b" not found")?,
        LaunchAnswer::Limit { .. } => out.extend(b" limit")?,
        LaunchAnswer::ThreadFault => out.extend(b" thread fault")?,
        LaunchAnswer::NoMemory => out.extend(b" no memory")?,
    }
    out.push(b'\n')
}

// What a post came to.
fn tell_post(out: &mut Bytes, sent: Result<u64, SendFault>) -> Told {
    out.extend(b"post:")?;
    match sent {
        Ok(position) => tell(out, b"written", position)?,
        Err(fault) => {
            out.push(b' ')?;
            out.extend(name_of(fault))?;
        }
    }
    out.push(b'\n')
}

// What an ask came to.
fn tell_reply(out: &mut Bytes, heard: Result<Reply, SendFault>) -> Told {
    out.extend(b"ask: ")?;
    match heard {
        Ok(reply) => put_message(out, &reply.message)?,
        Err(fault) => out.extend(name_of(fault))?,
    }
    out.push(b'\n')
}

// A run of what these lines describe.
fn begun(alloc: Global, text: &[u8]) -> Result<Run, Fail>
    ensures running { IfOk result (λ run. IsRunning run) }
{
    // What is described is what a run takes.
    descriptions_are_whole();
    let input = split_lines(alloc, text)?;
    let apps = read_description(alloc, input.lines.as_slice())?;
    Ok(Run::new(alloc, apps)?)
}

fn gate_of(alloc: Global, at: At) -> Result<AnyGate, Fail> {
    Ok(match at {
        At::Open => AnyGate::Open,
        At::Held(looper) if looper < 32 => AnyGate::Hold(Hold::new(alloc, looper)?),
        At::Held(_) => return Err("no such looper".into()),
        At::Watched(place, is_short) => AnyGate::Watch(Watch::new(alloc, place, is_short)?),
    })
}

impl Stage {
    ghost use Rattle.std.specs.Prelude.{◌<◌, OnOk};
    ghost use Rattle.ak_run.specs.Sending.{looper_count};

    // A run of what the scene describes, in which nothing was done.
    fn open(alloc: Global, scene: &Scene) -> Result<Stage, Fail>
        ensures running { IfOk result (λ stage. IsRunning stage.run) }
    {
        let run = begun(alloc, scene.text)?;
        Ok(Stage {
            alloc,
            run,
            gate: gate_of(alloc, scene.at)?,
            spawner: PlannedSpawner::new(Vec::from_slice(alloc, scene.refused)?),
            notes: 0,
            told: Bytes::new(alloc),
        })
    }

    // Launches the application of that path, with these arguments, if there are any.
    fn launch<R: Threads + Wait + Copy + Send + 'static>(
        &mut self,
        rt: &R,
        path: &[u8],
        arguments: Option<&Message>,
    ) -> Result<(), Fail>
        requires running { IsRunning self.old.run }
        ensures running { IsRunning self.new.run }
    {
        let word = AppWord::Path(Text::from_bytes(self.alloc, path)?);
        let answer = self
            .run
            .launch(rt, &mut self.spawner, &self.gate, &word, arguments);
        Ok(tell_launch(&mut self.told, answer)?)
    }

    // The same with the arguments of that line.
    fn launch_with<R: Threads + Wait + Copy + Send + 'static>(
        &mut self,
        rt: &R,
        path: &[u8],
        line: &[u8],
    ) -> Result<(), Fail>
        requires running { IsRunning self.old.run }
        ensures running { IsRunning self.new.run }
    {
        let arguments = message_of(self.alloc, line)?;
        self.launch(rt, path, Some(&arguments))
    }

    // Whether that looper was started.
    fn has(&self, looper: u32) -> Result<(), Fail>
        requires running { IsRunning self.now.run }
        ensures { OnOk result (looper < looper_count self.now.run) }
    {
        if looper < self.run.loopers() {
            Ok(())
        } else {
            Err(Fail::new("no such looper was started"))
        }
    }

    // Posts, and waits for room.
    fn send<R: Wait>(
        &mut self,
        rt: &R,
        looper: u32,
        target: Target,
        line: &[u8],
    ) -> Result<Result<u64, SendFault>, Fail>
        requires running { IsRunning self.old.run }
        ensures running { IsRunning self.new.run }
    {
        self.has(looper)?;
        let message = message_of(self.alloc, line)?;
        Ok(self.run.post(rt, looper, envelope(target), &message))
    }

    // The same, and tells what it came to.
    fn post<R: Wait>(
        &mut self,
        rt: &R,
        looper: u32,
        target: Target,
        line: &[u8],
    ) -> Result<(), Fail>
        requires running { IsRunning self.old.run }
        ensures running { IsRunning self.new.run }
    {
        let sent = self.send(rt, looper, target, line)?;
        Ok(tell_post(&mut self.told, sent)?)
    }

    // Posts to each of these loopers.
    fn post_to_each<R: Wait>(&mut self, rt: &R, loopers: &[u32], line: &[u8]) -> Result<(), Fail>
        requires running { IsRunning self.old.run }
        ensures running { IsRunning self.new.run }
    {
        for looper in loopers {
            self.send(rt, *looper, Target::Preferred, line)??;
        }
        Ok(())
    }

    // The same so often.
    fn post_often<R: Wait>(
        &mut self,
        rt: &R,
        times: u32,
        loopers: &[u32],
        line: &[u8],
    ) -> Result<(), Fail>
        requires running { IsRunning self.old.run }
        ensures running { IsRunning self.new.run }
    {
        for _ in 0..times {
            self.post_to_each(rt, loopers, line)?;
        }
        Ok(())
    }

    // Posts a note to that looper. Answers whether so many items of others stand before it, where all others are notes.
    fn post_note<R: Wait>(&mut self, rt: &R, looper: u32, others: u64) -> Result<bool, Fail>
        requires running { IsRunning self.old.run }
        ensures running { IsRunning self.new.run }
    {
        let position = self.send(rt, looper, Target::Preferred, b"'note'")??;
        self.notes = self.notes.wrapping_add(1);
        Ok(position.wrapping_add(1) == self.notes.wrapping_add(others))
    }

    // Posts notes, now and then, until so many items of others stand there.
    fn post_notes<R: Wait + Clock>(&mut self, rt: &R, looper: u32, others: u64) -> Result<(), Fail>
        requires running { IsRunning self.old.run }
        ensures running { IsRunning self.new.run }
    {
        for _ in 0..900 {
            if self.post_note(rt, looper, others)? {
                return Ok(());
            }
            sleep(rt, Duration::from_millis(2));
        }
        Err(Fail::new("nothing was written there"))
    }

    // Asks one of the looper's handlers, and waits for the reply.
    fn ask<R: Wait>(&mut self, rt: &R, looper: u32, target: Target, line: &[u8]) -> Result<(), Fail>
        requires running { IsRunning self.old.run }
        ensures running { IsRunning self.new.run }
    {
        self.has(looper)?;
        let message = message_of(self.alloc, line)?;
        let heard = self.run.ask(rt, looper, envelope(target), &message);
        Ok(tell_reply(&mut self.told, heard)?)
    }

    // Edits the handlers.
    fn edit<R: Wait>(&mut self, rt: &R, looper: u32, edit: Edit) -> Result<(), Fail>
        requires running { IsRunning self.old.run }
        ensures running { IsRunning self.new.run }
    {
        self.has(looper)?;
        self.run.edit(rt, looper, edit);
        Ok(())
    }

    // Adds a handler.
    fn add<R: Wait>(&mut self, rt: &R, looper: u32, name: &[u8]) -> Result<(), Fail>
        requires running { IsRunning self.old.run }
        ensures running { IsRunning self.new.run }
    {
        let name = Text::from_bytes(self.alloc, name)?;
        self.edit(rt, looper, Edit::Add(name))
    }

    fn act<R: Threads + Wait + Clock + Copy + Send + 'static>(
        &mut self,
        rt: &R,
        act: Act,
    ) -> Result<(), Fail>
        requires running { IsRunning self.old.run }
        ensures running { IsRunning self.new.run }
    {
        match act {
            Act::Launch(path) => self.launch(rt, path, None),
            Act::LaunchWith(path, line) => self.launch_with(rt, path, line),
            Act::Post(looper, line) => self.post(rt, looper, Target::Preferred, line),
            Act::PostTo(looper, target, line) => self.post(rt, looper, target, line),
            Act::Often(times, loopers, line) => self.post_often(rt, times, loopers, line),
            Act::Notes(looper, others) => self.post_notes(rt, looper, others),
            Act::Ask(looper, line) => self.ask(rt, looper, Target::Preferred, line),
            Act::AskOf(looper, target, line) => self.ask(rt, looper, target, line),
            Act::Add(looper, name) => self.add(rt, looper, name),
            Act::Remove(looper, token) => self.edit(rt, looper, Edit::Remove(token)),
            Act::Await => {
                self.gate.await_arrival(rt);
                Ok(())
            }
            Act::LetGo => {
                self.gate.let_go();
                Ok(())
            }
        }
    }

    // One after the other.
    fn act_all<R: Threads + Wait + Clock + Copy + Send + 'static>(
        &mut self,
        rt: &R,
        acts: &[Act],
    ) -> Result<(), Fail>
        requires running { IsRunning self.old.run }
        ensures running { IsRunning self.new.run }
    {
        for act in acts {
            self.act(rt, *act)?;
        }
        Ok(())
    }

    // Ends the run, in which no session was opened, and keeps what was told.
    fn end<R: Threads + Wait>(self, rt: &R) -> Result<Ended, Fail>
        requires running { IsRunning self.run }
    {
        if self.run.sessions() > 0 {
            return Err(Fail::new("a session was opened"));
        }
        let Stage {
            alloc,
            run,
            gate,
            spawner,
            notes,
            told,
        } = self;
        Ok(Ended {
            alloc,
            histories: run.end(rt).histories,
            gate,
            asked: spawner.asked(),
            notes,
            told,
        })
    }
}

// A run that has ended, and what is told of it.
#[derive(Drop)]
struct Ended {
    alloc: Global,
    histories: Histories,
    gate: AnyGate,
    asked: u64,
    notes: u64,
    told: Bytes,
}

fn port_of(histories: &Histories, looper: u32) -> Result<&PortBook, Fail> {
    Ok(histories.ports.get(looper as usize).ok_or("no such port")?)
}

fn desk_of(histories: &Histories, looper: u32) -> Result<&Desk, Fail> {
    Ok(histories.desks.get(looper as usize).ok_or("no such desk")?)
}

fn counted(histories: &Histories, looper: u32) -> Result<Account, Fail> {
    let port = port_of(histories, looper)?;
    Ok(account_of(looper, port, desk_of(histories, looper)?)?)
}

fn tell_ports(
    out: &mut Bytes,
    alloc: Global,
    histories: &Histories,
    looper: u32,
    threads: &[u32],
) -> Result<(), Fail> {
    let port = port_of(histories, looper)?;
    for thread in threads {
        tell_port(out, alloc, port, *thread)?;
    }
    Ok(())
}

fn tell_rosters(out: &mut Bytes, histories: &Histories, threads: &[u32]) -> Told {
    for thread in threads {
        tell_roster(out, &histories.roster, *thread)?;
    }
    Ok(())
}

fn tell_team(
    out: &mut Bytes,
    alloc: Global,
    histories: &Histories,
    team: u32,
    first: usize,
    last: usize,
) -> Result<(), Fail> {
    let ports = histories.ports.get(first..last).ok_or("no such ports")?;
    Ok(tell_closing(out, alloc, &histories.roster, team, ports)?)
}

fn tell_number(out: &mut Bytes, word: &[u8], number: u64) -> Told {
    tell(out, word, number)?;
    out.push(b'\n')
}

fn tell_seen(out: &mut Bytes, gate: &AnyGate) -> Told {
    if let AnyGate::Watch(watch) = gate {
        let (calls, strange, came) = watch.seen();
        tell(out, b"calls", calls)?;
        tell(out, b"strange", strange)?;
        tell_number(out, b"came", came)?;
    }
    Ok(())
}

impl Ended {
    fn tell(&mut self, what: Tell) -> Result<(), Fail> {
        let Ended {
            alloc,
            histories,
            gate,
            asked,
            notes,
            told,
        } = self;
        match what {
            Tell::Port(looper, threads) => tell_ports(told, *alloc, histories, looper, threads),
            Tell::Desk(looper) => Ok(tell_desk(told, desk_of(histories, looper)?)?),
            Tell::Book => Ok(tell_book(told, *alloc, &histories.book)?),
            Tell::SlotsOf(thread) => Ok(tell_slots_of(told, *alloc, &histories.book, thread)?),
            Tell::Roster(threads) => Ok(tell_rosters(told, histories, threads)?),
            Tell::Account(looper) => Ok(tell_account(told, looper, counted(histories, looper)?)?),
            Tell::Left(looper) => Ok(tell_left(told, counted(histories, looper)?, *notes)?),
            Tell::Tries(looper, thread) => {
                Ok(tell_tries(told, port_of(histories, looper)?, thread)?)
            }
            Tell::Closing(team, first, last) => {
                tell_team(told, *alloc, histories, team, first, last)
            }
            Tell::Asked => Ok(tell_number(told, b"asked", *asked)?),
            Tell::Seen => Ok(tell_seen(told, gate)?),
        }
    }
}

/// What is told of that scene: what main heard, and then what the lists have at the end.
pub fn told_of<R: Threads + Wait + Clock + Copy + Send + 'static>(
    rt: &R,
    alloc: Global,
    scene: &Scene,
) -> Result<Bytes, Fail> {
    let mut stage = Stage::open(alloc, scene)?;
    stage.act_all(rt, scene.acts)?;
    let mut ended = stage.end(rt)?;
    for what in scene.tells {
        ended.tell(*what)?;
    }
    Ok(ended.told)
}
