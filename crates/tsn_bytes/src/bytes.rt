//! What a reader and a writer of bytes are, and the writing of a whole text.
//! The contracts speak of the bytes that a reader has left and that a writer took, where these are known;
//! all code above is written over the two traits, so that it runs in memory as it runs over a terminal.
ghost use Rattle.std.specs.Prelude.{◌≡◌, ℕ, ◌<◌, ◌≤◌, List, [], Option, Bool, true, length, take, IfOk, IfErr, OnOk, OnErr};
ghost use Rattle.std.specs.Io.KnownBytes.{Consumes, Appends, Keeps, IsAtEnd};
ghost use Rattle.tsn_bytes.specs.Bytes.{IsCut, Counts};

use thiserror::Error;

/// A call of a reader or a writer failed. It moved no byte.
#[derive(Clone, Copy, Debug, PartialEq, Eq)]
pub struct Failed;

/// Why a run over bytes ended before its input did.
#[derive(Clone, Copy, Debug, PartialEq, Eq, Error)]
pub enum Fault {
    /// The reader failed, or gave no end within the reads that were allowed.
    #[error("read failed")]
    Read,
    /// The writer failed, or took 0 bytes of some.
    #[error("write failed")]
    Write,
    /// Memory was wanted and not there.
    #[error("out of memory")]
    Memory,
    /// What answers the lines can answer no more.
    #[error("no ticket left")]
    Exhausted,
}

/// A reader of bytes.
pub trait ByteIn {
    // The bytes that are still to come, where they are known.
    ghost remaining: { Self → Option (List ℕ) };

    // How many calls were made, as far as they are counted.
    ghost calls: { Self → ℕ };

    // Whether a call has failed.
    ghost has_failed: { Self → Bool };

    /// Puts bytes into the front of the buffer and says how many. 0 for a buffer that is not empty is the end.
    /// A failed call moves no byte.
    fn pull(&mut self, buffer: &mut [u8]) -> Result<usize, Failed>
        ensures calls { Counts (calls self.old) (calls self.new) 1 }
        ensures count { IfOk result (λ n. n ≤ length buffer.new) }
        ensures bytes { IfOk result (λ n.
            Consumes (remaining self.old) (remaining self.new) (take n buffer.new)) }
        ensures end { IfOk result (λ n. n ≡ 0 → 0 < length buffer.new
            → IsAtEnd (remaining self.new)) }
        ensures worked { OnOk result (has_failed self.new ≡ has_failed self.old) }
        ensures err { OnErr result (Keeps (remaining self.old) (remaining self.new)) }
        ensures failed { OnErr result (has_failed self.new ≡ true) };
}

/// A writer of bytes.
pub trait ByteOut {
    // The bytes that were taken so far, where they are known.
    ghost taken: { Self → Option (List ℕ) };

    // Of the bytes that were taken, those at the end that are held back until there are more or a flush.
    ghost pending: { Self → List ℕ };

    // Whether a call has failed, or took nothing of a slice that is not empty.
    ghost has_failed: { Self → Bool };

    /// Takes bytes from the front of the slice and says how many. 0 for a slice that is not empty counts as a
    /// failure. A failed call moves no byte.
    fn put(&mut self, bytes: &[u8]) -> Result<usize, Failed>
        ensures count { IfOk result (λ n. n ≤ length bytes.now) }
        ensures bytes { IfOk result (λ n.
            Appends (taken self.old) (taken self.new) (take n bytes.now)) }
        ensures worked { IfOk result (λ n. (n ≡ 0 → length bytes.now ≡ 0)
            → has_failed self.new ≡ has_failed self.old) }
        ensures nothing { IfOk result (λ n. n ≡ 0 → 0 < length bytes.now
            → has_failed self.new ≡ true) }
        ensures err { OnErr result (Keeps (taken self.old) (taken self.new)) }
        ensures failed { OnErr result (has_failed self.new ≡ true) };

    /// Whether it would take so many bytes with no wait, as far as it knows. It decides when to write and who waits
    /// meanwhile, and never what is written.
    fn has_room(&self, _bytes: usize) -> bool {
        false
    }

    /// Hands on all that is held back. It takes no byte, and a call that fails loses none.
    fn flush(&mut self) -> Result<(), Failed>
        ensures bytes { Keeps (taken self.old) (taken self.new) }
        ensures ok { OnOk result (pending self.new ≡ []) }
        ensures worked { OnOk result (has_failed self.new ≡ has_failed self.old) }
        ensures failed { OnErr result (has_failed self.new ≡ true) };
}

/// Writes all the bytes, in as many calls as the writer wants. The one fault is `Write`, where the writer failed
/// or took 0 bytes; then the bytes that it took are a front of these, and not all.
pub fn put_all<W: ByteOut>(writer: &mut W, bytes: &[u8]) -> Result<(), Fault>
    ensures ok { OnOk result (Appends (W.taken writer.old) (W.taken writer.new) bytes.now) }
    ensures worked { OnOk result (W.has_failed writer.new ≡ W.has_failed writer.old) }
    ensures fault { IfErr result (λ e. e ≡ Fault.Write) }
    ensures failed { OnErr result (W.has_failed writer.new ≡ true) }
    ensures cut { OnErr result (IsCut (W.taken writer.old) (W.taken writer.new) bytes.now) }
{
    let mut done = 0;
    'puts: while done < bytes.len() {
        let count = match writer.put(&bytes[done..]) {
            Ok(count) => count,
            Err(_) => return Err(Fault::Write),
        };
        if count == 0 {
            return Err(Fault::Write);
        }
        done += count;
    }
    Ok(())
}
