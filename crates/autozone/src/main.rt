//! The program `autozone`: it plays a script of calls to a garbage collected zone, and writes the history of the zone.
//!
//! `zone_commands` does all of it, over any source and sinks. `main` only makes the ends.
#![tactic(auto)]

use az_base::NoMemory;
use az_outside::{StdSink, StdSource};
use std::env;
use std::io::ErrorKind;
use std::process::ExitCode;
use zone_commands::{Status, autozone, say};

/// The words after the program's name, or none where one of them isn't UTF-8, since none are no command either.
fn words(rt: &HostRuntime) -> Result<Vec<String>, NoMemory> {
    let mut words = Vec::new(rt.alloc());
    let args = match env::args(rt) {
        Ok(args) => args,
        Err(error) if error.kind() == ErrorKind::OutOfMemory => return Err(NoMemory),
        Err(_) => return Ok(words),
    };
    for word in args.skip(1) {
        if words.push(word).is_err() {
            return Err(NoMemory);
        }
    }
    Ok(words)
}

fn main(rt: HostRuntime) -> ExitCode {
    let mut source = StdSource::new(rt.stdin());
    let mut out = StdSink::new(rt.stdout());
    let mut err = StdSink::new(rt.stderr());
    let status = match words(&rt) {
        Ok(words) => autozone(&rt, rt.alloc(), &words, &mut source, &mut out, &mut err),
        Err(NoMemory) => {
            say(&mut err, "autozone: no memory\n");
            Status::NoMemory
        }
    };
    ExitCode::from(status.number())
}
