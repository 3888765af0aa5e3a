//! A file of three lines, whose digests were made by Python's `hashlib`, and the reading of a file in pieces.
ghost use Rattle.std.specs.Prelude.{◌<◌, length};

use std::alloc::{AllocError, Global};
use tsn_recorded::{End, Reader};

pub const FILE: &[u8] =
    b"770f29fb72440a5dfd67e48259b7a4e3 2026-11-27T12:31:00Z {\"journal\":1,\"setup\":\"\"}
4e1cfdd7ccbddd3d83282f830f579c20 2026-11-27T12:31:07Z {\"do\":\"hello\"}
1cb62aacfdecffe76f77864206e6d538 2026-11-27T12:32:00Z {\"do\":\"create\",\"key\":\"gate 0\",\"record\":{},\"s\":1}
";

/// Lets the reader go on to the last line that it can give.
pub fn advance_all(reader: &mut Reader) {
    'lines: while reader.advance() {}
}

/// How many lines a file gives that is fed in pieces of so many bytes, 1 or more; how many bytes these are; and its
/// end.
pub fn read(alloc: Global, text: &[u8], size: usize) -> Result<(u64, u64, End), AllocError>
    requires { 0 < size }
{
    let mut reader = Reader::new(alloc);
    'pieces: for piece in text.chunks(size) {
        reader.feed(piece)?;
        advance_all(&mut reader);
    }
    Ok((reader.lines(), reader.good(), reader.end()))
}
