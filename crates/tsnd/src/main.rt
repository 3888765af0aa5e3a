//! `tsnd`: the configuration service of one time-aware bridge.
//!
//! `tsnd script` answers a script of command lines on standard input with one reply line each on standard output, from
//! a setup in a file or from the standard one. `tsnd serve` answers the lines of many connections over TCP, on one
//! bridge, and then tells the gates of each port. With a journal file, what the sessions of either do outlasts it, and
//! `tsnd journal` says what is in one. `tsnd states` prints the gate states of a port at even steps. `tsnd check` says
//! what is in a setup, or where it is at fault, or which of the command lines on standard input can't be asked. The
//! status is 0, or 1 after a line on standard error that says why, or 2 for a command line that is refused.
#![tactic(auto)]

mod setup;
#[cfg(test)]
mod tests;

use setup::{fail_to_read, setup_text};
use std::io::ErrorKind;
use std::process::ExitCode;
use std::rt::Env;
use std::{env, io};
use tsn_bytes::{Buffered, Fault, StdIo};
use tsn_connections::{ErrorLog, Place, serve_at};
use tsn_durable_server::serve_over;
use tsn_failures::{Failure, fail};
use tsn_program::{check_lines, run};
use tsn_wal_queries::look_at;
use tsn_wal_scripts::script_over;
use tsn_words::{Asked, read_words};

/// The words of the command line, the program's name first; none where a word is no UTF-8.
fn words_of<R: Env + AllocGlobal>(rt: &R) -> Result<Option<Vec<String>>, Fault> {
    let all = match env::args(rt) {
        Ok(all) => all,
        Err(error) if error.kind() == ErrorKind::InvalidData => return Ok(None),
        Err(_) => return Err(Fault::Memory),
    };
    let mut words = Vec::new(rt.alloc());
    for word in all {
        if words.push(word).is_err() {
            return Err(Fault::Memory);
        }
    }
    Ok(Some(words))
}

/// What the words of the process ask for.
fn asked_for<R: Env + AllocGlobal>(rt: &R) -> Result<Asked, Fault> {
    let words = match words_of(rt) {
        Ok(words) => words,
        Err(fault) => return Err(fault),
    };
    read_words(rt.alloc(), words.as_ref().map(Vec::as_slice))
}

/// Hands the process to what its words ask for, with the text of the setup that they name, its standard input, its
/// standard output behind a buffer, and its standard error.
fn main(rt: HostRuntime) -> ExitCode {
    let mut errors = StdIo::new(rt.stderr());
    let asked = match asked_for(&rt) {
        Ok(asked) => asked,
        Err(fault) => return ExitCode::from(fail(&mut errors, Failure::Fault(fault))),
    };
    let setup = match setup_text(&rt, &asked) {
        Ok(setup) => setup,
        Err(why) => return ExitCode::from(fail_to_read(&rt, &mut errors, &asked, &why)),
    };
    let Ok(mut output) = Buffered::new(rt.alloc(), StdIo::new(io::writer(&rt))) else {
        return ExitCode::from(fail(&mut errors, Failure::Fault(Fault::Memory)));
    };
    let mut input = StdIo::new(rt.reader());
    let alloc = rt.alloc();
    let log = ErrorLog::new(&rt, alloc, rt.stderr());
    let text = setup.as_slice();
    let own = asked.file().is_some().then_some(text);
    ExitCode::from(match &asked {
        Asked::Serve {
            listen,
            serving,
            kept,
            ..
        } => {
            let place = Place {
                endpoint: listen.as_str(),
                serving: *serving,
                log: &log,
            };
            match kept {
                Some(kept) => serve_over(&rt, own, kept, &place, &mut output, &mut errors),
                None => serve_at(&rt, alloc, text, &place, &mut output, &mut errors),
            }
        }
        Asked::Script {
            kept: Some(kept),
            ..
        } => script_over(&rt, own, kept, &mut input, output, &mut errors),
        Asked::Lines => check_lines(alloc, &mut input, &mut output, &mut errors),
        Asked::Journal { file, look } => {
            look_at(&rt, file.as_str(), look, &mut output, &mut errors)
        }
        _ => run(alloc, &asked, text, &mut input, &mut output, &mut errors),
    })
}
