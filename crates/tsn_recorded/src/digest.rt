//! The digest of a line.
ghost use Rattle.std.specs.Prelude.{◌≡◌, ◌++◌, ◌∷◌, take};
ghost use Rattle.sha2.specs.Hashers.{Holds256};
ghost use Rattle.hex.specs.Hex.{encode_lower};
ghost use Rattle.tsn_recorded.specs.Text.{digest_after, digest_length, space};

use sha2::{Digest, Sha256};

// The first 32 hexadecimal digits of these bytes: those of the first half.
fn first_digits(bytes: &[u8; 32]) -> [u8; 32]
    ensures { result ≡ take digest_length (encode_lower bytes.now) }
{
    let mut digits = [0u8; 32];
    let Ok(()) = hex::encode_to_slice(&bytes[..16], &mut digits) else {
        unreachable!()
    };
    digits
}

// A hasher that has taken the digest before, from which a line goes on.
fn going_on(last: &[u8]) -> Sha256
    ensures { Holds256 result last.now }
{
    let mut hasher = Sha256::new();
    hasher.update(last);
    hasher
}

// The digest of the line whose text behind its own space is this, where it goes on from the digest `last`.
pub(crate) fn digest_of_body(last: &[u8], body: &[u8]) -> [u8; 32]
    ensures { result ≡ digest_after last.now body.now }
{
    let mut hasher = going_on(last);
    hasher.update(body);
    first_digits(&hasher.finalize())
}

// The digest of the line with this stamp and this command, where it goes on from the digest `last`.
pub(crate) fn digest_of_parts(last: &[u8], stamp: &[u8], command: &[u8]) -> [u8; 32]
    ensures { result ≡ digest_after last.now (stamp.now ++ space ∷ command.now) }
{
    let mut hasher = going_on(last);
    hasher.update(stamp);
    hasher.update(b" ");
    hasher.update(command);
    first_digits(&hasher.finalize())
}
