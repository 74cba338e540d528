//! Entries that are made here, and their lines.
use ak_base::{Bytes, NoMemory, ThreadId};
use ak_desk::{DeskEvent, Edit, EditAnswer};
use ak_handler::HandlerFault;
use ak_journal::{Entry, Event, ObjectName, print_entry};
use ak_port::{PortEvent, ReplyEvent};
use ak_roster::RosterEvent;
use std::alloc::Global;
use std::process::Abort;
use std::str::from_utf8;

fn line_of(alloc: Global, entry: Entry) -> Result<Bytes, NoMemory> {
    let mut out = Bytes::new(alloc);
    print_entry(alloc, &entry, &mut out)?;
    Ok(out)
}

// The entry has that line.
fn is_printed(
    rt: &impl Abort,
    alloc: Global,
    by: ThreadId,
    object: ObjectName,
    event: Event,
    wanted: &str,
) {
    let entry = Entry {
        stamp: 7,
        by,
        object,
        event,
    };
    match line_of(alloc, entry) {
        Ok(line) => assert_eq!(rt;
            from_utf8(line.as_slice()).unwrap_or("no text"),
            wanted,
            "{wanted}"
        ),
        Err(NoMemory) => assert!(rt; false, "no memory for {wanted}"),
    }
}

#[test]
fn entries_are_printed(rt: HostRuntime) {
    let alloc = rt.alloc();
    let main = ThreadId::MAIN;
    let session = ThreadId(3);
    let looper = ThreadId::FIRST_LOOPER;
    let port = ObjectName::Port(4);
    let desk = ObjectName::Desk(5);
    let made = PortEvent::Made {
        capacity: 2,
        life: 8192,
    };
    is_printed(
        &rt,
        alloc,
        main,
        port,
        Event::Port(made),
        "7 m port 4 made 2 8192",
    );
    is_printed(
        &rt,
        alloc,
        session,
        port,
        Event::Port(PortEvent::Full),
        "7 s3 port 4 full",
    );
    is_printed(
        &rt,
        alloc,
        session,
        port,
        Event::Port(PortEvent::Refused),
        "7 s3 port 4 refused",
    );
    is_printed(
        &rt,
        alloc,
        looper,
        port,
        Event::Port(PortEvent::Spent),
        "7 l0 port 4 spent",
    );
    is_printed(
        &rt,
        alloc,
        looper,
        port,
        Event::Port(PortEvent::Took(1)),
        "7 l0 port 4 took 1",
    );
    is_printed(
        &rt,
        alloc,
        looper,
        port,
        Event::Port(PortEvent::Rest(9)),
        "7 l0 port 4 rest 9",
    );
    is_printed(
        &rt,
        alloc,
        main,
        port,
        Event::Port(PortEvent::Shut),
        "7 m port 4 shut",
    );
    is_printed(
        &rt,
        alloc,
        main,
        ObjectName::Book,
        Event::Book(ReplyEvent::Opened(6)),
        "7 m book opened 6",
    );
    is_printed(
        &rt,
        alloc,
        main,
        ObjectName::Book,
        Event::Book(ReplyEvent::Cancelled(6)),
        "7 m book cancelled 6",
    );
    is_printed(
        &rt,
        alloc,
        main,
        ObjectName::Book,
        Event::Book(ReplyEvent::Taken(6)),
        "7 m book taken 6",
    );
    is_printed(
        &rt,
        alloc,
        main,
        ObjectName::Roster,
        Event::Roster(RosterEvent::Gone { team: 8 }),
        "7 m roster gone 8",
    );
    is_printed(
        &rt,
        alloc,
        looper,
        ObjectName::Roster,
        Event::Roster(RosterEvent::Door { looper: 9 }),
        "7 l0 roster door 9",
    );
    let edited = DeskEvent::Edited {
        edit: Edit::Next(1, Some(2)),
        answer: EditAnswer::Refused(HandlerFault::ChainLoop),
    };
    is_printed(
        &rt,
        alloc,
        main,
        desk,
        Event::Desk(edited),
        "7 m desk 5 edited next 1 2 K_CHAIN_LOOP",
    );
}

// An entry need not be one that a run makes: it is printed all the same.
#[test]
fn entries_that_no_run_makes_are_printed(rt: HostRuntime) {
    let alloc = rt.alloc();
    let short = DeskEvent::Edited {
        edit: Edit::Prefer(None),
        answer: EditAnswer::NoMemory,
    };
    is_printed(
        &rt,
        alloc,
        ThreadId::MAIN,
        ObjectName::Desk(0),
        Event::Desk(short),
        "7 m desk 0 edited prefer none B_NO_MEMORY",
    );
    is_printed(
        &rt,
        alloc,
        ThreadId::MAIN,
        ObjectName::Book,
        Event::Port(PortEvent::Full),
        "7 m book full",
    );
}
