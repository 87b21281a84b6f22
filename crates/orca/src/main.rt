//! The program `orca`: hands the words, the host's files and standard output to the top call.
#![tactic(auto)]

use orca_cli::{RunNote, Status, finished, orca_run, put_usage};
use orca_io::{FileShelf, NoGate, StdSink};
use std::io::ErrorKind;
use std::process::ExitCode;
use std::{env, io};

// The words of the command line without the program's name.
fn words_of(rt: &(impl std::rt::Env + AllocGlobal)) -> io::Result<Vec<String>> {
    let mut words = Vec::new(rt.alloc());
    for word in env::args(rt)?.skip(1) {
        words.push(word)?;
    }
    Ok(words)
}

fn main(rt: HostRuntime) -> ExitCode {
    let mut out = StdSink::new(&rt);
    let status = match words_of(&rt) {
        Ok(words) => {
            let mut shelf = FileShelf::new(&rt);
            let mut note = RunNote::new();
            orca_run(
                &rt,
                rt.alloc(),
                &words,
                &mut shelf,
                &mut out,
                &NoGate,
                &mut note,
            )
        }
        Err(e) if e.kind() == ErrorKind::OutOfMemory => Status::Memory,
        // A word that isn't text is no word of a command.
        Err(_) => put_usage(&mut out),
    };
    // Lines that were held back count as written only now.
    let status = finished(status, out.finish());
    ExitCode::from(status.number())
}
