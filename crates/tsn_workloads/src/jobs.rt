//! The jobs, each a row of bridges with a setup and a script of their own, through the program's own call.

use crate::audit::Audit;
use crate::blocked::Blocked;
use crate::colleagues::Colleagues;
use crate::looks::Looks;
use crate::numbers::Random;
use crate::odd_bridge::{Sizes, odd_setup};
use crate::plan::Plan;
use crate::script::{Job, Script};
use crate::setups::{limits_setup, plan_setup, port_setup};
use crate::spellings::Spellings;
use crate::text::Text;
use crate::traffic::Traffic;
use std::alloc::Global;
use tsn_bytes::{ByteIn, ByteOut, Fault, MemIn, MemOut, put_all};
use tsn_program::run;
use tsn_words::{Asked, Listing};

// The most bytes of a write to the errors.
const PIECE: usize = 65536;

// The most streams of a setup, which keeps it below a megabyte.
const MOST_STREAMS: u64 = 2000;

// The most standing entries behind one that blocks.
const MOST_STANDING: u64 = 60_000;

/// A job that a user waits for.
#[derive(Clone, Copy, PartialEq, Eq)]
pub enum Name {
    /// A computed plan goes in.
    Plan,
    /// Colleagues try things and take them back.
    Colleagues,
    /// An undo of all is blocked.
    Blocked,
    /// Traffic is tried on a plan.
    Traffic,
    /// Someone looks.
    Looks,
    /// Lines that no program of the service wrote.
    Spellings,
    /// A bridge is audited.
    Audit,
}

impl Name {
    /// The job of this word, if there is one.
    pub fn of(word: &str) -> Option<Name> {
        match word {
            "plan" => Some(Name::Plan),
            "colleagues" => Some(Name::Colleagues),
            "blocked" => Some(Name::Blocked),
            "traffic" => Some(Name::Traffic),
            "looks" => Some(Name::Looks),
            "spellings" => Some(Name::Spellings),
            "audit" => Some(Name::Audit),
            _ => None,
        }
    }
}

// Answers the script of a job from a bridge with this setup, and gives the program's status.
fn script<J: Job + Drop, W: ByteOut>(alloc: Global, setup: &Text, job: J, output: &mut W) -> u8 {
    let mut input = Script::new(alloc, job);
    let mut errors = MemOut::new(Vec::new(alloc), PIECE, None);
    let asked = Asked::Script {
        file: None,
        kept: None,
    };
    let text = setup.as_slice();
    run(alloc, &asked, text, &mut input, output, &mut errors)
}

// Prints the states of port 1 of this setup at so many instants, and gives the program's status.
fn states<W: ByteOut>(
    alloc: Global,
    setup: &Text,
    random: &mut Random,
    count: u64,
    output: &mut W,
) -> u8 {
    let listing = Listing {
        port: 1,
        from: 1_000 + random.below(1_000_000),
        step: 500 + random.below(10_000),
        count: count.min(1_000_000).max(1),
    };
    let asked = Asked::States {
        file: String::new(alloc),
        listing,
    };
    let mut input = MemIn::new(Vec::new(alloc), PIECE, None);
    let mut errors = MemOut::new(Vec::new(alloc), PIECE, None);
    let text = setup.as_slice();
    run(alloc, &asked, text, &mut input, output, &mut errors)
}

fn plan<W: ByteOut>(alloc: Global, random: &mut Random, size: u64, output: &mut W) -> u8 {
    let setup = plan_setup(alloc, random, size.min(MOST_STREAMS));
    let job = Plan::new(alloc, random.other(), size);
    script(alloc, &setup, job, output)
}

fn colleagues<W: ByteOut>(alloc: Global, random: &mut Random, size: u64, output: &mut W) -> u8 {
    let setup = limits_setup(alloc, 64, 65_536, 16);
    let job = Colleagues::new(alloc, random.other(), size);
    script(alloc, &setup, job, output)
}

fn blocked<W: ByteOut>(alloc: Global, random: &mut Random, size: u64, output: &mut W) -> u8 {
    let setup = limits_setup(alloc, 2, 65_536, 16);
    let standing = size.saturating_mul(400).min(MOST_STANDING);
    let job = Blocked::new(random.other(), standing, size);
    script(alloc, &setup, job, output)
}

fn traffic<W: ByteOut>(alloc: Global, random: &mut Random, size: u64, output: &mut W) -> u8 {
    let mut status = 0;
    for filters in [16, 256, 4096] {
        let setup = limits_setup(alloc, 2, 4096, 16);
        let job = Traffic::new(random.other(), filters, size);
        status = script(alloc, &setup, job, output).max(status);
    }
    status
}

fn looks<W: ByteOut>(alloc: Global, random: &mut Random, size: u64, output: &mut W) -> u8 {
    let setup = limits_setup(alloc, 2, 4096, 16);
    let job = Looks::new(alloc, random.other(), size.min(4096), size);
    let mut status = script(alloc, &setup, job, output);
    for entries in [16, 1024, 4096] {
        let setup = port_setup(alloc, random, entries);
        status = states(alloc, &setup, random, size, output).max(status);
    }
    status
}

fn spellings<W: ByteOut>(alloc: Global, random: &mut Random, size: u64, output: &mut W) -> u8 {
    let setup = Text::new(alloc);
    let job = Spellings::new(random.other(), size);
    script(alloc, &setup, job, output)
}

fn audit<W: ByteOut>(alloc: Global, random: &mut Random, size: u64, output: &mut W) -> u8 {
    let sizes = Sizes::new(random, size);
    let setup = odd_setup(alloc, random, &sizes);
    let job = Audit::new(random.other(), sizes);
    script(alloc, &setup, job, output)
}

// Hands on the lines of a job.
fn put_lines<J: Job + Drop, W: ByteOut>(
    alloc: Global,
    job: J,
    output: &mut W,
) -> Result<(), Fault> {
    let mut input = Script::new(alloc, job);
    let mut buffer = [0u8; 4096];
    for _ in 0..u64::MAX {
        let Ok(count) = input.pull(&mut buffer) else {
            return Err(Fault::Read);
        };
        if count == 0 {
            break;
        }
        put_all(output, &buffer[..count])?;
    }
    Ok(())
}

/// Hands on what an audit of this seed and size asks of its first bridge: the setup, a line `# lines`, and the lines.
pub fn put_audit<W: ByteOut>(
    alloc: Global,
    seed: u64,
    size: u64,
    output: &mut W,
) -> Result<(), Fault> {
    let mut random = Random::new(seed);
    let sizes = Sizes::new(&mut random, size);
    let setup = odd_setup(alloc, &mut random, &sizes);
    put_all(output, setup.as_slice())?;
    put_all(output, b"# lines\n")?;
    put_lines(alloc, Audit::new(random.other(), sizes), output)?;
    output.flush().map_err(|_| Fault::Write)
}

/// Does a job so many times, each time on other numbers, at this size, and gives the worst status of the program.
pub fn play<W: ByteOut>(
    alloc: Global,
    name: Name,
    seed: u64,
    rounds: u64,
    size: u64,
    output: &mut W,
) -> u8 {
    let mut random = Random::new(seed);
    let mut status = 0;
    for _ in 0..rounds {
        let of_round = match name {
            Name::Plan => plan(alloc, &mut random, size, output),
            Name::Colleagues => colleagues(alloc, &mut random, size, output),
            Name::Blocked => blocked(alloc, &mut random, size, output),
            Name::Traffic => traffic(alloc, &mut random, size, output),
            Name::Looks => looks(alloc, &mut random, size, output),
            Name::Spellings => spellings(alloc, &mut random, size, output),
            Name::Audit => audit(alloc, &mut random, size, output),
        };
        status = of_round.max(status);
    }
    status
}
