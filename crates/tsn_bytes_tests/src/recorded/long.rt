//! The longest line, one that is a byte longer, and a long rest with no line feed. Digests are those of Python's
//! `hashlib`.
use crate::comparing::same;
use crate::recorded::reading::{FILE, advance_all, read};
use std::alloc::{AllocError, Global};
use std::test::Fail;
use tsn_recorded::{End, LONGEST_COMMAND, LONGEST_FIRST_LINE, LONGEST_LINE, Reader};

// The file, and behind it a line with this digest whose command has so many bytes.
fn with_line(alloc: Global, digest: &[u8], count: usize) -> Result<Vec<u8>, AllocError> {
    let mut text = Vec::from_slice(alloc, FILE)?;
    text.extend_from_slice(digest)?;
    text.extend_from_slice(b" 2026-11-27T12:33:00Z ")?;
    for _ in 0..count {
        text.push(b'x')?;
    }
    text.push(b'\n')?;
    Ok(text)
}

#[test]
fn longest_line_reads(rt: HostRuntime) -> Result<(), Fail> {
    let text = with_line(
        rt.alloc(),
        b"dc944e7426d768aa577d8713654000d3",
        LONGEST_COMMAND,
    )?;
    let bytes = text.len() as u64;
    same(&rt, &LONGEST_LINE, &131_126);
    same(&rt, &LONGEST_FIRST_LINE, &6_291_542);
    same(&rt, &(bytes), &(FILE.len() as u64).saturating_add(131_127));
    same(
        &rt,
        &read(rt.alloc(), text.as_slice(), 4096)?,
        &(4, bytes, End::Whole),
    );
    Ok(())
}

#[test]
fn longer_line_is_damaged(rt: HostRuntime) -> Result<(), Fail> {
    let digest = b"539de574c9e4e805335a6e57ecbe2da4";
    let text = with_line(rt.alloc(), digest, 131_073)?;
    let good = FILE.len() as u64;
    let damaged = End::Damaged { line: 4 };
    same(
        &rt,
        &read(rt.alloc(), text.as_slice(), 4096)?,
        &(3, good, damaged),
    );
    same(
        &rt,
        &read(rt.alloc(), text.as_slice(), 400_000)?,
        &(3, good, damaged),
    );
    Ok(())
}

#[test]
fn long_rest_is_counted(rt: HostRuntime) -> Result<(), Fail> {
    let mut reader = Reader::new(rt.alloc());
    reader.feed(FILE)?;
    for _ in 0..512 {
        advance_all(&mut reader);
        reader.feed(&[0; 4096])?;
    }
    advance_all(&mut reader);
    same(&rt, &reader.end(), &End::Unfinished { bytes: 2_097_152 });
    reader.feed(b"\n")?;
    same(&rt, &reader.advance(), &false);
    same(&rt, &reader.end(), &End::Damaged { line: 4 });
    same(&rt, &reader.good(), &(FILE.len() as u64));
    Ok(())
}
