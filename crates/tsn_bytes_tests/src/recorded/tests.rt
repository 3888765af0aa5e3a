//! Three lines: written, read, cut after each byte, with a bit of each byte turned, and fed in pieces.
use crate::comparing::same;
use crate::recorded::reading::{FILE, read};
use std::alloc::{AllocError, Global};
use std::test::Fail;
use tsn_recorded::{AROUND, Chain, End, Reader};

// How many lines end within the first bytes, and how many bytes these are.
fn ends_within(count: usize) -> (u64, u64) {
    let mut lines = 0u64;
    let mut good = 0u64;
    for (place, byte) in FILE.iter().take(count).enumerate() {
        if *byte == b'\n' {
            lines = lines.saturating_add(1);
            good = (place as u64).saturating_add(1);
        }
    }
    (lines, good)
}

#[test]
fn lines_are_written(rt: HostRuntime) -> Result<(), Fail> {
    let mut text = Vec::new(rt.alloc());
    let mut chain = Chain::new();
    same(&rt, &chain.last(), &b"".as_slice());
    chain.append(
        &mut text,
        b"2026-11-27T12:31:00Z",
        b"{\"journal\":1,\"setup\":\"\"}",
    )?;
    chain.append(&mut text, b"2026-11-27T12:31:07Z", b"{\"do\":\"hello\"}")?;
    let command = b"{\"do\":\"create\",\"key\":\"gate 0\",\"record\":{},\"s\":1}";
    text.reserve(20 + command.len() + AROUND)?;
    chain.put(&mut text, b"2026-11-27T12:32:00Z", command);
    same(&rt, &text.as_slice(), &FILE);
    same(
        &rt,
        &chain.last(),
        &b"1cb62aacfdecffe76f77864206e6d538".as_slice(),
    );
    Ok(())
}

#[test]
fn lines_are_given(rt: HostRuntime) -> Result<(), Fail> {
    let mut reader = Reader::new(rt.alloc());
    same(&rt, &reader.end(), &End::Whole);
    reader.feed(&FILE[..200])?;
    same(&rt, &reader.advance(), &true);
    same(&rt, &reader.stamp(), &b"2026-11-27T12:31:00Z".as_slice());
    same(
        &rt,
        &reader.command(),
        &b"{\"journal\":1,\"setup\":\"\"}".as_slice(),
    );
    same(
        &rt,
        &reader.last(),
        &b"770f29fb72440a5dfd67e48259b7a4e3".as_slice(),
    );
    same(&rt, &reader.advance(), &true);
    reader.feed(&FILE[200..])?;
    same(&rt, &reader.stamp(), &b"2026-11-27T12:31:07Z".as_slice());
    same(&rt, &reader.command(), &b"{\"do\":\"hello\"}".as_slice());
    same(&rt, &reader.lines(), &2);
    same(&rt, &reader.good(), &148);
    same(
        &rt,
        &reader.chain().last(),
        &b"4e1cfdd7ccbddd3d83282f830f579c20".as_slice(),
    );
    same(&rt, &reader.advance(), &true);
    same(&rt, &reader.advance(), &false);
    same(&rt, &reader.command(), &b"".as_slice());
    same(&rt, &reader.end(), &End::Whole);
    Ok(())
}

#[test]
fn each_cut_reads(rt: HostRuntime) -> Result<(), Fail> {
    for count in 0..FILE.len() {
        let text = &FILE[..count];
        let (lines, good) = ends_within(count);
        let rest = (count as u64).saturating_sub(good);
        let end = if rest == 0 {
            End::Whole
        } else {
            End::Unfinished { bytes: rest }
        };
        same(&rt, &read(rt.alloc(), text, 400)?, &(lines, good, end));
        let mut torn = Vec::from_slice(rt.alloc(), text)?;
        torn.extend_from_slice(&[0; 9])?;
        let end = End::Unfinished {
            bytes: rest.saturating_add(9),
        };
        same(
            &rt,
            &read(rt.alloc(), torn.as_slice(), 400)?,
            &(lines, good, end),
        );
    }
    Ok(())
}

// The file with a bit of this byte turned.
fn turned(alloc: Global, place: usize) -> Result<Vec<u8>, AllocError> {
    let mut text = Vec::from_slice(alloc, FILE)?;
    if let Some(byte) = text.get_mut(place) {
        *byte ^= 1;
    }
    Ok(text)
}

#[test]
fn each_turned_bit_is_seen(rt: HostRuntime) -> Result<(), Fail> {
    for place in 0..FILE.len() {
        let (lines, good) = ends_within(place);
        let end = if place == FILE.len() - 1 {
            End::Unfinished {
                bytes: (FILE.len() as u64).saturating_sub(good),
            }
        } else {
            End::Damaged {
                line: lines.saturating_add(1),
            }
        };
        let text = turned(rt.alloc(), place)?;
        same(
            &rt,
            &read(rt.alloc(), text.as_slice(), 400)?,
            &(lines, good, end),
        );
    }
    Ok(())
}

#[test]
fn pieces_of_any_size_read(rt: HostRuntime) -> Result<(), Fail> {
    for size in 1..40usize {
        same(
            &rt,
            &read(rt.alloc(), FILE, size)?,
            &(3, FILE.len() as u64, End::Whole),
        );
    }
    Ok(())
}

#[test]
fn lost_line_is_seen(rt: HostRuntime) -> Result<(), Fail> {
    let mut text = Vec::from_slice(rt.alloc(), &FILE[..79])?;
    text.extend_from_slice(&FILE[148..])?;
    same(
        &rt,
        &read(rt.alloc(), text.as_slice(), 64)?,
        &(1, 79, End::Damaged { line: 2 }),
    );
    Ok(())
}
