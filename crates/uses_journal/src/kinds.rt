//! A line of each kind, and lines that are none.
use crate::back::{Came, come};
use ak_base::NoMemory;
use std::alloc::Global;
use std::process::Abort;

// The line comes to that.
fn comes(rt: &impl Abort, alloc: Global, wanted: Came, line: &str) {
    match come(alloc, line.as_bytes()) {
        Ok(came) => assert_eq!(rt; came, wanted, "{line}"),
        Err(NoMemory) => assert!(rt; false, "no memory for {line}"),
    }
}

const PORTS: [&str; 11] = [
    "1 m port 0 made 2 8192",
    "2 m port 0 written 0 p 0 prog none 0 414b4d315f52545200000000",
    "7 s3 port 31 written 4 18446744073709551615 7 drop back:3.p 0 414b4d315f52545200000000",
    "7 s3 port 31 written 4 9 7 drop back:3.77 0 414b4d315f52545200000000",
    "6 m port 0 written 1 p 0 prog slot:0 0 414b4d3150474554000000014d5347470a73706563696669657273010021414b4d310000000100000001435354520870726f7065727479010005436f756e74",
    "18446744073709551615 m port 4294967295 full",
    "8 l2 port 1 spent",
    "8 l2 port 1 refused",
    "4 l0 port 0 took 1",
    "12 m port 0 shut",
    "13 l0 port 0 rest 0",
];

#[test]
fn lines_of_ports_come_back(rt: HostRuntime) {
    for line in PORTS {
        comes(&rt, rt.alloc(), Came::Back, line);
    }
}

const DESKS: [&str; 14] = [
    "5 l0 desk 0 dispatched 0 to 0",
    "7 l31 desk 0 dispatched 3 skipped",
    "7 l31 desk 0 dispatched 3 dropped",
    "7 l31 desk 0 dispatched 3 not-understood quit",
    "7 l31 desk 0 dispatched 3 forward 2 B_BAD_PORT_ID",
    "7 l31 desk 0 dispatched 3 to 2 quit team:3 reply:414b4d315f52545200000000 no-team K_NO_TEAM B_OK",
    "7 l31 desk 0 dispatched 3 no-memory",
    "7 m desk 0 edited add Bell token:4",
    "1 m desk 0 edited add 7 token:18446744073709551615",
    "7 m desk 0 edited remove 3 B_BAD_HANDLER",
    "7 m desk 0 edited next 3 4 B_OK",
    "7 m desk 0 edited next 3 none K_CHAIN_LOOP",
    "7 m desk 0 edited prefer 3 B_OK",
    "7 m desk 0 edited prefer none B_OK",
];

#[test]
fn lines_of_desks_come_back(rt: HostRuntime) {
    for line in DESKS {
        comes(&rt, rt.alloc(), Came::Back, line);
    }
}

const BOOK_AND_ROSTER: [&str; 15] = [
    "5 m book opened 0",
    "9 l0 book filled 0 414b4d3152504c59000000024c4f4e4706726573756c74010004000000034c4f4e47056572726f7201000400000000",
    "9 s4 book cancelled 18446744073709551615",
    "10 m book taken 0",
    "3 m roster launch /boot/demo started 0 1 0",
    "7 m roster launch application/x-vnd.gen running 3",
    "7 m roster launch /gen not-found",
    "7 m roster launch /gen limit",
    "4 m roster find demo team 1",
    "7 m roster find 12 no-team",
    "1 m roster find 007 no-team",
    "7 m roster find application/x-vnd.gen team 3",
    "11 m roster gone 1",
    "7 s8000 roster door 4",
    "7 l4294957295 roster door 4",
];

#[test]
fn lines_of_the_book_and_the_roster_come_back(rt: HostRuntime) {
    for line in BOOK_AND_ROSTER {
        comes(&rt, rt.alloc(), Came::Back, line);
    }
}

const NONE: [&str; 33] = [
    "",
    "7",
    "7 m",
    "7 m roster",
    "07 m roster door 4",
    "7 m  roster door 4",
    " 7 m roster door 4",
    "7 m roster door 4 ",
    "7 m roster door 4\n",
    "7 m roster door 4 4",
    "7 m roster Door 4",
    "7 m port 4 door 4",
    "7 m book door 4",
    "7 s10000 roster door 4",
    "7 s0 roster door 4",
    "7 s roster door 4",
    "7 l roster door 4",
    "7 m0 roster door 4",
    "18446744073709551616 m port 0 full",
    "1 m port 4294967296 full",
    "1 m port full",
    "1 m port 0 full extra",
    "1 m roster find a/b no-team",
    "1 m roster launch /a/ not-found",
    "1 m roster launch 7 not-found",
    "1 m roster launch demo not-found",
    "1 m roster find /boot/demo no-team",
    "7 m desk 0 edited prefer 3 B_NO_MEMORY",
    "7 m book filled 4 00",
    "2 m port 0 written 0 p 0 prog none 1 414b4d315f52545200000000",
    "2 m port 0 written 0 p 0 prog none 0 414B4D315F52545200000000",
    "2 m port 0 written 0 p 0 prog none 0 414b4d315f5254520000000",
    "2 m port 0 written 0 p 0 prog slot: 0 414b4d315f52545200000000",
];

#[test]
fn lines_that_are_none(rt: HostRuntime) {
    for line in NONE {
        comes(&rt, rt.alloc(), Came::Refused, line);
    }
}
