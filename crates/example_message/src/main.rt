//! A message is made, written as flat text and read back, and bytes that are no flat text are refused at
//! their first fault. (The Be Book, BMessage.)
#![tactic(auto)]

ghost use Rattle.std.specs.Prelude.{◌≡◌, IfOk};
ghost use Rattle.ak_message.specs.Popped.{unpopped};

use ak_base::{Code, Text};
use ak_flatten::{UnflattenFault, flatten, one_spelling, unflatten, written_is_read};
use ak_message::{Kind, Message, Value};
use std::alloc::Global;
use std::fmt::Debug;
use std::process::ExitCode;

/// The example ends early: memory ran out, or nothing could be written. A program would have an enum here, with
/// a variant for each fault that it answers in its own way.
struct Stopped;

impl<E: Debug + Drop> From<E> for Stopped {
    fn from(_error: E) -> Stopped {
        Stopped
    }
}

fn code(letters: &[u8; 4]) -> Code {
    Code(u32::from_be_bytes(*letters))
}

/// A message of code `mail`, with a text, two numbers of one name, and a message in it.
fn letter(alloc: Global) -> Result<Message, Stopped> {
    let mut size = Message::new(alloc, code(b"size"));
    size.add(b"bytes", Value::UInt64(1_200))?;
    let mut letter = Message::new(alloc, code(b"mail"));
    let subject = Text::from_bytes(alloc, b"The port is full")?;
    letter.add(b"subject", Value::Text(subject))?;
    letter.add(b"copies", Value::Int32(2))?;
    letter.add(b"copies", Value::Int32(3))?;
    letter.add(b"size", Value::from_message(alloc, size)?)?;
    Ok(letter)
}

fn print_letter(rt: &impl Print, letter: &Message) -> Result<(), Stopped> {
    if let Ok(Value::Text(subject)) = letter.find(b"subject", Kind::Text, 0) {
        println!(rt; "subject: {}", subject.as_str())?;
    }
    // Values of one name count from 0.
    if let Ok(Value::Int32(copies)) = letter.find(b"copies", Kind::Int32, 1) {
        println!(rt; "second number of copies: {copies}")?;
    }
    // What is not there is refused with its cause.
    if let Err(fault) = letter.find(b"subject", Kind::Int32, 0) {
        println!(rt; "subject as a number: {fault:?}")?;
    }
    Ok(())
}

/// Prints at which byte the first fault of the bytes is.
fn print_fault(rt: &(impl Print + AllocGlobal), bytes: &[u8]) -> Result<(), Stopped> {
    if let Err(UnflattenFault::Bad(fault)) = unflatten(rt.alloc(), bytes) {
        println!(rt;
            "{} bytes: {:?} at byte {}",
            bytes.len(),
            fault.kind,
            fault.place
        )?;
    }
    Ok(())
}

/// What a receiver reads of the message: the message itself, in which no specifier is popped.
fn received(alloc: Global, letter: &Message) -> Result<Message, Stopped>
    ensures { IfOk result (λ read. read ≡ unpopped letter.now) }
{
    written_is_read();
    one_spelling();
    // Reading the code shows that the message is within all limits.
    let _code = letter.what();
    let flat = flatten(alloc, letter)?;
    Ok(unflatten(alloc, flat.as_slice())?)
}

fn run(rt: &(impl Print + AllocGlobal)) -> Result<(), Stopped> {
    let letter = letter(rt.alloc())?;
    print_letter(rt, &received(rt.alloc(), &letter)?)?;
    let flat = flatten(rt.alloc(), &letter)?;
    println!(rt; "flat text: {} bytes", flat.len())?;
    if let Some((_, front)) = flat.as_slice().split_last() {
        print_fault(rt, front)?;
    }
    print_fault(rt, b"no flat text")
}

fn main(rt: HostRuntime) -> ExitCode {
    match run(&rt) {
        Ok(()) => ExitCode::SUCCESS,
        Err(Stopped) => ExitCode::FAILURE,
    }
}
