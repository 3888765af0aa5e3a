//! Does a job that a user of the service waits for, on lines made from a seed, and prints a digest of all that was
//! replied.
//!
//! Words: JOB SEED ROUNDS SIZE, as `plan 1 30 2000`, or JOB SEED ROUNDS SIZE replies, which prints the replies
//! themselves; audit SEED ROUNDS SIZE lines prints the setup and the lines of the first round. With no words each job
//! is done once, small.
#![tactic(auto)]

mod audit;
mod blocked;
mod colleagues;
mod digest;
mod hand;
mod jobs;
mod looks;
mod numbers;
mod odd_bridge;
mod odd_records;
mod plan;
mod pool;
mod records;
mod script;
mod setups;
mod spellings;
mod text;
mod traffic;

use digest::Digest;
use jobs::{Name, play, put_audit};
use std::alloc::{AllocError, Global};
use std::rt::Env;
use std::{env, io};
use tsn_bytes::{Buffered, ByteOut, StdIo};

// What is printed of a job.
#[derive(Clone, Copy, PartialEq, Eq)]
enum Shown {
    Digest,
    Replies,
    Lines,
}

// What a run is asked for.
#[derive(Clone, Copy)]
struct Request {
    name: Name,
    seed: u64,
    rounds: u64,
    size: u64,
    shown: Shown,
}

impl Request {
    // Does the job, and gives its status.
    fn play<W: ByteOut>(self, alloc: Global, output: &mut W) -> u8 {
        play(alloc, self.name, self.seed, self.rounds, self.size, output)
    }
}

// The small run of each job.
const SMALL: [(&'static str, u64); 7] = [
    ("plan", 70),
    ("colleagues", 3000),
    ("blocked", 20),
    ("traffic", 500),
    ("looks", 500),
    ("spellings", 20),
    ("audit", 24),
];

// The number at this place of the words, if there is one.
fn number_at(words: &[String], place: usize) -> Option<u64> {
    words.get(place)?.as_str().parse::<u64>().ok()
}

// What the word behind the numbers, if there is one, asks to print of this job.
fn shown_by(words: &[String], name: Name) -> Shown {
    match words.get(5) {
        None => Shown::Digest,
        Some(word) => {
            if word.as_str() == "lines" && name == Name::Audit {
                Shown::Lines
            } else {
                Shown::Replies
            }
        }
    }
}

// What the words behind the program's name ask for, if it can be told.
fn request_of(words: &[String]) -> Option<Request> {
    let name = Name::of(words.get(1)?.as_str())?;
    Some(Request {
        name,
        seed: number_at(words, 2)?,
        rounds: number_at(words, 3)?,
        size: number_at(words, 4)?,
        shown: shown_by(words, name),
    })
}

// Does the job, and prints a line with the digest of its replies, how many bytes they are and the status.
fn print_digest(rt: &(impl Print + AllocGlobal), word: &str, request: Request) -> io::Result<()> {
    let alloc = rt.alloc();
    let mut output = Buffered::new(alloc, Digest::new())?;
    let status = request.play(alloc, &mut output);
    let digest = output.inner().value();
    let taken = output.inner().taken();
    println!(rt; "{word} {digest:x} of {taken} bytes, status {status}")
}

// Does the job, and prints its replies.
fn print_replies(rt: &(impl Print + AllocGlobal), request: Request) -> io::Result<()> {
    let alloc = rt.alloc();
    let mut output = Buffered::new(alloc, StdIo::new(io::writer(rt)))?;
    let status = request.play(alloc, &mut output);
    println!(rt; "status {status}")
}

// Prints the setup and the lines of an audit.
fn print_lines(rt: &(impl Print + AllocGlobal), request: Request) -> io::Result<()> {
    let alloc = rt.alloc();
    let mut output = Buffered::new(alloc, StdIo::new(io::writer(rt)))?;
    if put_audit(alloc, request.seed, request.size, &mut output).is_err() {
        println!(rt; "failed")?;
    }
    Ok(())
}

fn print_small(rt: &(impl Print + AllocGlobal)) -> io::Result<()> {
    for (word, size) in SMALL {
        if let Some(name) = Name::of(word) {
            let request = Request {
                name,
                seed: 7,
                rounds: 1,
                size,
                shown: Shown::Digest,
            };
            print_digest(rt, word, request)?;
        }
    }
    Ok(())
}

fn words_of<R: Env + AllocGlobal>(rt: &R) -> io::Result<Vec<String>> {
    let mut words = Vec::new(rt.alloc());
    for word in env::args(rt)? {
        words.push(word).map_err(AllocError::from)?;
    }
    Ok(words)
}

fn main(rt: HostRuntime) -> io::Result<()> {
    let words = words_of(&rt)?;
    let Some(request) = request_of(words.as_slice()) else {
        return print_small(&rt);
    };
    match (request.shown, words.get(1)) {
        (Shown::Lines, _) => print_lines(&rt, request),
        (Shown::Digest, Some(word)) => print_digest(&rt, word.as_str(), request),
        _ => print_replies(&rt, request),
    }
}
