//! What the system refuses at a start, told with the name of the file or the address and the reason.
ghost use Rattle.std.specs.Prelude.{◌≡◌, ◌⊎◌, IfOk, string_bytes, codes};
ghost use Rattle.tsn_bytes.specs.declared.bytes.Fault.TheVariants.{Memory};
ghost use Rattle.tsn_failures.specs.Failures.{fault_line};
ghost use Rattle.tsn_failures.specs.Output.{Tells, written};
ghost use Rattle.tsn_failures.specs.Starting.{undone_line, undone_text};

use crate::failures::Failure;
use crate::telling::{fail, tell};
use std::alloc::{AllocError, Global};
use tsn_bytes::{ByteOut, Fault};

/// What could not be done at a start.
#[derive(Clone, Copy, Debug, PartialEq, Eq)]
pub enum Undone {
    /// To read the file of the setup.
    Reading,
    /// To listen at an address.
    Listening,
}

impl Undone {
    // Begins its line.
    fn text(self) -> &'static str
        ensures { result.now ≡ undone_text self }
    {
        match self {
            Undone::Reading => "tsnd: cannot read the setup ",
            Undone::Listening => "tsnd: cannot listen on ",
        }
    }
}

// The line that tells of it.
fn line_of(alloc: Global, undone: Undone, name: &str, reason: &str) -> Result<Vec<u8>, AllocError>
    ensures { IfOk result (λ line. line.items ≡ undone_line undone name.now reason.now) }
{
    let mut line = Vec::from_slice(alloc, undone.text().as_bytes())?;
    line.extend_from_slice(name.as_bytes())?;
    line.extend_from_slice(b": ")?;
    line.extend_from_slice(reason.as_bytes())?;
    line.extend_from_slice(b"\n")?;
    Ok(line)
}

/// Tells in one line what could not be done, with which file or at which address, and why; and gives the status, 1.
/// Where there is no memory for that line, that is told in its place.
pub fn fail_start<W: ByteOut>(
    alloc: Global,
    errors: &mut W,
    undone: Undone,
    name: &str,
    reason: &str,
) -> u8
    ensures status { result ≡ 1 }
    ensures line { Tells (written W.taken W.pending W.has_failed errors.old errors.new)
        (undone_line undone name.now reason.now)
        ⊎ Tells (written W.taken W.pending W.has_failed errors.old errors.new)
        (fault_line Memory) }
{
    let Ok(line) = line_of(alloc, undone, name, reason) else {
        return fail(errors, Failure::Fault(Fault::Memory));
    };
    tell(errors, line.as_slice());
    1
}
