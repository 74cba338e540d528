//! The program `kit`. It makes the words of the command line and the real source and sink, calls the top
//! call, and ends with its status.
#![tactic(auto)]

use ak_base::{Bytes, NoMemory};
use ak_outside::{OpenGate, StdSink, StdSource, StdSpawner};
use std::env::Env;
use std::io::ErrorKind;
use std::process::ExitCode;
use std::{env, io};

/// The words after the program's name. Arguments that are no text are no words, so that the command line
/// is a faulty one.
fn words(rt: &(impl Env + AllocGlobal)) -> Result<Vec<Bytes>, NoMemory> {
    let mut words = Vec::new(rt.alloc());
    match env::args(rt) {
        Ok(args) => {
            for arg in args.skip(1) {
                let mut word = Bytes::new(rt.alloc());
                word.extend(arg.as_bytes())?;
                words.push(word)?;
            }
            Ok(words)
        }
        Err(error) if error.kind() == ErrorKind::OutOfMemory => Err(NoMemory),
        Err(_) => Ok(words),
    }
}

fn main(rt: HostRuntime) -> ExitCode {
    let Ok(words) = words(&rt) else {
        return ExitCode::from(6);
    };
    let mut source = StdSource::new(rt.reader());
    let mut sink = StdSink::new(io::writer(&rt));
    let mut spawner = StdSpawner::new();
    let end = ak_kit::kit(
        rt.alloc(),
        &rt,
        &words,
        &mut source,
        &mut sink,
        &mut spawner,
        &OpenGate,
    );
    ExitCode::from(end.status)
}
