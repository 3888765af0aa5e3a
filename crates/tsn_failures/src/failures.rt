//! Why a run ends with status 1, and the line that says so.
ghost use Rattle.std.specs.Prelude.{◌≡◌, []};
ghost use Rattle.tsn_failures.specs.Failures.{failure_line, refusal_line};

use std::fmt;
use std::fmt::{Display, Formatter, Write};
use thiserror::Error;
use tsn_bytes::Fault;
use tsn_encoding::ShortText;
use tsn_types::refusals::Refusal;

/// Why a run failed. As a text it is what its line says, without the program's name.
#[derive(Clone, Copy, Debug, PartialEq, Eq, Error)]
pub enum Failure {
    /// Reading the input or writing the output failed, or memory was wanting.
    #[error(transparent)]
    Fault(Fault),
    /// The file of the setup was not read.
    #[error("cannot read the setup")]
    Setup,
    /// The setup, or what is asked of its bridge, is refused.
    #[error("{}", Told(*.0))]
    Refused(Refusal),
}

/// A refusal as a failure tells it: by its number and its name, and want of memory as wherever it is met.
#[derive(Drop)]
struct Told(Refusal);

impl Display for Told {
    fn fmt<W: Write>(&self, f: &mut Formatter<W>) -> Result<(), fmt::Error> {
        match &self.0 {
            Refusal::Memory => write!(f, "{}", Fault::Memory),
            why => write!(f, "refused {} {}", why.number(), why.name()),
        }
    }
}

#[tactic(auto, using(tsn_encoding::proofs::Names::name_short))]
fn push_refusal(text: &mut ShortText, why: &Refusal)
    requires { text.old ≡ [] }
    ensures { text.new ≡ refusal_line why.now }
{
    text.push("tsnd: refused ");
    text.push_number(why.number());
    text.push(" ");
    text.push(why.name());
    text.push("\n");
}

/// The line that says why.
pub fn failure_line(failure: &Failure) -> ShortText
    ensures { result ≡ failure_line failure.now }
{
    let mut text = ShortText::new();
    match failure {
        Failure::Fault(Fault::Read) => text.push("tsnd: read failed\n"),
        Failure::Fault(Fault::Write) => text.push("tsnd: write failed\n"),
        Failure::Fault(Fault::Memory) => text.push("tsnd: out of memory\n"),
        Failure::Fault(Fault::Exhausted) => text.push("tsnd: no ticket left\n"),
        Failure::Setup => text.push("tsnd: cannot read the setup\n"),
        Failure::Refused(Refusal::Memory) => text.push("tsnd: out of memory\n"),
        Failure::Refused(why) => push_refusal(&mut text, why),
    }
    text
}
