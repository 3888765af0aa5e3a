//! A look at command lines: which of them can't be asked, why, and where they are at fault. Nothing is asked.
ghost use Rattle.std.specs.Prelude.{◌≡◌, ◌≤◌, ◌++◌, ℕ, List, [], Some, length, option_map};
ghost use Rattle.tsn_serve.specs.Outcomes.{moment};
ghost use Rattle.tsn_program.specs.Lines.{BreaksLooking, ChecksLines, IsTold, LooksAt, WhyNot, cause_text};
ghost use Rattle.tsn_failures.specs.Output.{written};

use std::alloc::Global;
use std::marker::Model;
use tsn_bytes::{ByteIn, ByteOut, Fault, put_all};
use tsn_encoding::ShortText;
use tsn_failures::{Failure, fail};
use tsn_serve::{Ended, Responder, answer_lines, read_line};
use tsn_types::refusals::Refusal;
use tsn_where::command_spot;

// The most reads of an input.
const READS: u64 = 4_294_967_296;

// The most bytes of the words on a spot.
const LONGEST_SPOT: usize = 600;

/// How many lines were looked at, and how many of them can't be asked.
#[derive(Drop)]
struct LineLook {
    lines: u64,
    refused: u64,
}

impl Model for LineLook {
    ghost use Rattle.std.specs.Prelude.{◌≤◌};
    ghost use Rattle.tsn_program.specs.Lines.{Looked};

    ghost Value = { Looked };

    ghost view = { λ l. record { lines = l.lines; refused = l.refused } };

    ghost invariant = { λ l. l.refused ≤ l.lines };
}

// Why a line can't be asked, if it can't.
fn cause_of(alloc: Global, line: Option<&[u8]>) -> Option<Refusal>
    ensures { WhyNot (option_map (λ s. s.now) line.entry) result }
{
    read_line(alloc, line).err()
}

// Puts which line can't be asked, and why, into an empty text.
#[tactic(auto, using(tsn_encoding::proofs::Names::name_short))]
fn push_cause(text: &mut ShortText, number: u64, why: &Refusal)
    requires { text.old ≡ [] }
    ensures text { text.new ≡ cause_text number why.now }
    ensures len { length text.new ≤ 80 }
{
    text.push("line ");
    text.push_number(number);
    text.push(": refused ");
    text.push_number(why.number());
    text.push(" ");
    text.push(why.name());
}

// Puts the words on a spot behind the text, where there are some and they are not too long.
fn push_spot(text: &mut ShortText, spot: &str)
    requires { length text.old ≤ 80 }
    ensures text { (more : List ℕ) × (text.new ≡ text.old ++ more) }
    ensures len { length text.new ≤ 684 }
{
    if spot.is_empty() || spot.len() > LONGEST_SPOT {
        return;
    }
    text.push(": ");
    text.push_bytes(spot.as_bytes());
}

// What is told of a line that can't be asked.
fn told(alloc: Global, number: u64, line: Option<&[u8]>, why: Refusal) -> ShortText
    ensures { IsTold number (Some why) result }
{
    let spot = command_spot(alloc, line.unwrap_or(b""), why);
    let mut text = ShortText::new();
    push_cause(&mut text, number, &why);
    push_spot(&mut text, spot.as_str());
    text.push("\n");
    text
}

impl Responder for LineLook {
    ghost answers = { LooksAt };

    ghost breaks = { BreaksLooking };

    fn answer<W: ByteOut>(&mut self, alloc: Global, line: Option<&[u8]>, writer: &mut W) -> Ended {
        if self.lines == u64::MAX {
            return Err(Fault::Exhausted);
        }
        let cause = cause_of(alloc, line);
        self.lines += 1;
        let Some(why) = cause else {
            return Ok(());
        };
        self.refused += 1;
        put_all(writer, told(alloc, self.lines, line, why).as_slice())
    }
}

/// Looks at each line of the input as a command, and tells on the output of those that can't be asked: which line it
/// is, why, and where it is at fault. The status is 0 where there is none.
pub fn check_lines<R: ByteIn, O: ByteOut, E: ByteOut>(
    alloc: Global,
    input: &mut R,
    output: &mut O,
    errors: &mut E,
) -> u8
    ensures { ChecksLines
        (λ s. moment R.remaining R.calls R.has_failed O.taken O.pending O.has_failed s input.old output.old)
        (λ s. moment R.remaining R.calls R.has_failed O.taken O.pending O.has_failed s input.new output.new)
        result
        (written E.taken E.pending E.has_failed errors.old errors.new) }
{
    let mut look = LineLook {
        lines: 0,
        refused: 0,
    };
    match answer_lines(alloc, &mut look, input, output, READS) {
        Ok(()) if look.refused == 0 => 0,
        Ok(()) => 1,
        Err(fault) => fail(errors, Failure::Fault(fault)),
    }
}
