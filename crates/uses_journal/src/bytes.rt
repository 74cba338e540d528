//! A sample journal, each of whose lines is read with each single byte changed to each other one, left out, or put in once more.
use crate::back::{Came, come};
use ak_base::NoMemory;
use std::alloc::Global;

// The journal of a launch, a question and its answer, and the end; and a session's edit and a message sent on.
const SAMPLE: [&str; 17] = [
    "1 m port 0 made 2 8192",
    "2 m port 0 written 0 p 0 prog none 0 414b4d315f52545200000000",
    "3 m roster launch /boot/demo started 0 1 0",
    "4 m roster find demo team 1",
    "4 l0 port 0 took 1",
    "5 m book opened 0",
    "5 l0 desk 0 dispatched 0 to 0",
    "6 m port 0 written 1 p 0 prog slot:0 0 414b4d3150474554000000014d5347470a73706563696669657273010021414b4d310000000100000001435354520870726f7065727479010005436f756e74",
    "7 s12 desk 0 edited add Bell token:4",
    "7 l0 port 1 written 0 0 1 drop back:3.p 1 414b4d3150474554000000014d5347470a73706563696669657273010021414b4d310000000100000001435354520870726f7065727479010005436f756e74",
    "8 l0 desk 0 dispatched 1 forward 1 quit B_OK team:3 reply:414b4d315f52545200000000",
    "9 l0 book filled 0 414b4d3152504c59000000024c4f4e4706726573756c74010004000000034c4f4e47056572726f7201000400000000",
    "10 m book taken 0",
    "11 m roster gone 1",
    "12 m port 0 shut",
    "13 l0 port 0 rest 0",
    "13 s2 roster launch application/x-vnd.demo running 3",
];

// Each of the sample's 902 bytes changed to 255 others, left out, and put in once more.
const TRIED: u64 = 902 * 257;

// How many of the lines that were read are none, how many are another entry's, and how many were read and printed otherwise.
#[derive(Clone, Copy, PartialEq, Eq, Debug)]
struct Told {
    refused: u64,
    others: u64,
    wrong: u64,
}

fn tell(told: &mut Told, alloc: Global, line: &[u8]) -> Result<(), NoMemory> {
    match come(alloc, line)? {
        Came::Refused => told.refused = told.refused.saturating_add(1),
        Came::Back => told.others = told.others.saturating_add(1),
        Came::Otherwise => told.wrong = told.wrong.saturating_add(1),
    }
    Ok(())
}

fn copied(alloc: Global, line: &[u8]) -> Result<Vec<u8>, NoMemory> {
    let mut copy = Vec::new(alloc);
    copy.extend_from_slice(line)?;
    Ok(copy)
}

// The line, with each other byte at that place.
fn tell_changed(
    told: &mut Told,
    alloc: Global,
    line: &[u8],
    place: usize,
    old: u8,
) -> Result<(), NoMemory> {
    let mut copy = copied(alloc, line)?;
    for byte in 0..=u8::MAX {
        if byte != old {
            if let Some(at) = copy.get_mut(place) {
                *at = byte;
            }
            tell(told, alloc, copy.as_slice())?;
        }
    }
    Ok(())
}

// The line without the byte at that place, and with it twice.
fn tell_moved(told: &mut Told, alloc: Global, line: &[u8], place: usize) -> Result<(), NoMemory> {
    let mut without = Vec::new(alloc);
    let mut doubled = Vec::new(alloc);
    for (at, byte) in line.iter().enumerate() {
        doubled.push(*byte)?;
        if at == place {
            doubled.push(*byte)?;
        } else {
            without.push(*byte)?;
        }
    }
    tell(told, alloc, without.as_slice())?;
    tell(told, alloc, doubled.as_slice())
}

fn tell_line(told: &mut Told, alloc: Global, line: &[u8]) -> Result<(), NoMemory> {
    for (place, old) in line.iter().enumerate() {
        tell_changed(told, alloc, line, place, *old)?;
        tell_moved(told, alloc, line, place)?;
    }
    Ok(())
}

fn tell_all(alloc: Global) -> Result<Told, NoMemory> {
    let mut told = Told {
        refused: 0,
        others: 0,
        wrong: 0,
    };
    for line in SAMPLE {
        tell_line(&mut told, alloc, line.as_bytes())?;
    }
    Ok(told)
}

#[test]
fn each_line_of_the_sample_comes_back(rt: HostRuntime) {
    for line in SAMPLE {
        match come(rt.alloc(), line.as_bytes()) {
            Ok(came) => assert_eq!(rt; came, Came::Back, "{line}"),
            Err(NoMemory) => assert!(rt; false, "no memory"),
        }
    }
}

// A changed line is read as an entry whose line it is, and which is another one so; or it is refused.
#[test]
fn no_changed_line_is_the_same_entry(rt: HostRuntime) {
    match tell_all(rt.alloc()) {
        Ok(told) => {
            assert_eq!(rt; told.wrong, 0);
            assert!(rt; told.others > 0, "no changed line is another entry's");
            assert_eq!(rt; told.refused.saturating_add(told.others), TRIED);
        }
        Err(NoMemory) => assert!(rt; false, "no memory"),
    }
}
