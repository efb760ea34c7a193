// The program: its commands over standard input and output.
#![tactic(auto)]

mod adapters;
mod help;
mod statuses;

use adapters::{Reading, Writing};
use ext_top::{Status, run};
use std::alloc::Global;
use std::io::BufReader;
use std::process::ExitCode;
use std::{env, io};

// The words of the command line, without the program's name.
fn words(rt: &HostRuntime) -> io::Result<Vec<String>> {
    let mut words = Vec::new(rt.alloc());
    for word in env::args(rt)?.skip(1) {
        words.push(word)?;
    }
    Ok(words)
}

// Runs the command of these words over standard input and output.
fn serve(rt: &HostRuntime, words: &Vec<String>) -> io::Result<Status> {
    let alloc: Global = rt.alloc();
    let mut texts = Vec::new(alloc);
    for word in words {
        texts.push(word.as_str())?;
    }
    if let Some(text) = help::text(texts.as_slice()) {
        return Ok(match print!(rt; "{text}") {
            Ok(()) => Status::Done,
            Err(_) => Status::WriteFault,
        });
    }
    let mut source = Reading::new(BufReader::new(alloc, rt.reader())?);
    let mut sink = Writing::new(io::writer(rt));
    Ok(run(alloc, texts.as_slice(), &mut source, &mut sink))
}

fn main(rt: HostRuntime) -> ExitCode {
    let status = match words(&rt) {
        Ok(words) => serve(&rt, &words).unwrap_or(Status::Memory),
        Err(_) => Status::Usage,
    };
    statuses::report(&rt, &status);
    ExitCode::from(statuses::code(&status))
}
