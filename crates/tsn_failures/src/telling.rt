//! What is shown on an output, and told on standard error.
ghost use Rattle.std.specs.Prelude.{◌≡◌, [], true, OnOk, IfErr, OnErr};
ghost use Rattle.std.specs.Io.KnownBytes.{Appends};
ghost use Rattle.tsn_bytes.specs.declared.bytes.Fault.TheVariants.{Write};
ghost use Rattle.tsn_failures.specs.Failures.{failure_line};
ghost use Rattle.tsn_failures.specs.Output.{IsFront, Reports, Tells, written};
ghost use Rattle.tsn_failures.specs.declared.failures.Failure.TheVariants as failures;

use crate::failures::{Failure, failure_line};
use tsn_bytes::{ByteOut, Fault, put_all};

/// Writes the text and hands it on.
pub fn show<W: ByteOut>(writer: &mut W, text: &[u8]) -> Result<(), Failure>
    ensures ok { OnOk result (Appends (W.taken writer.old) (W.taken writer.new) text.now
        × (W.pending writer.new ≡ [])) }
    ensures fault { IfErr result (λ failure. failure ≡ failures.Fault Write) }
    ensures failed { OnErr result (W.has_failed writer.new ≡ true) }
    ensures cut { OnErr result (IsFront (W.taken writer.old) (W.taken writer.new) text.now) }
{
    put_all(writer, text).map_err(Failure::Fault)?;
    writer.flush().map_err(|_| Failure::Fault(Fault::Write))
}

/// Writes the text where it can. Nothing is left to do where it can't.
pub fn tell<W: ByteOut>(errors: &mut W, text: &[u8])
    ensures { Tells (written W.taken W.pending W.has_failed errors.old errors.new) text.now }
{
    let _ = show(errors, text);
}

/// Tells of a failure, and gives its status, 1.
pub fn fail<W: ByteOut>(errors: &mut W, failure: Failure) -> u8
    ensures status { result ≡ 1 }
    ensures line { Tells (written W.taken W.pending W.has_failed errors.old errors.new) (failure_line failure) }
{
    tell(errors, failure_line(&failure).as_slice());
    1
}

/// The status of a run that ended so, of which a failure is told.
pub fn status_of<W: ByteOut>(errors: &mut W, outcome: Result<(), Failure>) -> u8
    ensures { Reports outcome result
        (written W.taken W.pending W.has_failed errors.old errors.new) }
{
    match outcome {
        Ok(()) => 0,
        Err(failure) => fail(errors, failure),
    }
}
