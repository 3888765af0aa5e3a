//! Each line that is compact, with its members in ascending order, is the line of what it asks: one of each command,
//! and lists and batches of the greatest length, whose line is handed on piece by piece.
use std::alloc::{AllocError, Global};
use std::process::Abort;
use std::test::Fail;
use tsn_spelling::spell;
use tsn_wire::command_of;

const LINES: &'static [&'static str] = &[
    "{\"do\":\"hello\"}",
    "{\"do\":\"create\",\"key\":\"gate 7\",\"record\":{\"base\":4611686018427387904,\"cycle\":3000,\"extension\":1,\"invalid_rx\":true,\"ipv\":7,\"list\":[[true,5,1000,150],[false,null,2000,null]],\"octets_exceeded\":false,\"open\":true},\"s\":1}",
    "{\"do\":\"create\",\"key\":\"meter 65535\",\"record\":{\"all_red\":false,\"aware\":false,\"cbs\":4294967295,\"cf\":true,\"cir\":1000000000000,\"drop_yellow\":true,\"ebs\":6,\"eir\":5},\"s\":65535}",
    "{\"do\":\"replace\",\"key\":\"port 64\",\"record\":{\"base\":3,\"cycle\":1000,\"extension\":2,\"gates\":255,\"list\":[[1,300],[128,700]]},\"s\":1}",
    "{\"do\":\"replace\",\"key\":\"port 64\",\"record\":{\"base\":3,\"cycle\":1000,\"extension\":2,\"gates\":255,\"list\":[]},\"s\":1}",
    "{\"do\":\"replace\",\"key\":\"filter 0\",\"record\":{\"gate\":9,\"handle\":4294967295,\"max_sdu\":1500,\"meter\":null,\"oversize\":true,\"priority\":null},\"s\":2}",
    "{\"do\":\"remove\",\"key\":\"filter 0\",\"s\":1}",
    "{\"do\":\"batch\",\"edits\":[{\"do\":\"remove\",\"key\":\"meter 65535\"}],\"s\":1}",
    "{\"do\":\"undo\",\"s\":1}",
    "{\"do\":\"undo_all\",\"s\":2}",
    "{\"do\":\"redo\",\"s\":3}",
    "{\"do\":\"settle\",\"s\":3,\"upto\":4294967295}",
    "{\"do\":\"enable\",\"key\":\"gate 7\",\"now\":4611686018427387904,\"s\":65535}",
    "{\"do\":\"disable\",\"key\":\"port 64\",\"now\":1000,\"s\":1}",
    "{\"do\":\"apply\",\"key\":\"port 64\",\"now\":0,\"s\":65535}",
    "{\"do\":\"frame\",\"handle\":4294967295,\"now\":4611686018427387904,\"octets\":65535,\"priority\":7,\"s\":65535,\"yellow\":false}",
    "{\"at\":1000,\"do\":\"states\",\"key\":\"gate 7\",\"s\":1}",
    "{\"do\":\"counters\",\"key\":\"filter 0\",\"s\":1}",
    "{\"do\":\"show\",\"key\":\"meter 65535\",\"s\":1}",
    "{\"do\":\"list\",\"kind\":\"port\",\"s\":1}",
    "{\"after\":4294967295,\"do\":\"since\",\"s\":1}",
];

const MOST_ENTRIES: u64 = 4096;

const MOST_EDITS: u64 = 16;

// The line of what a line asks, behind an x.
fn respelled(alloc: Global, line: &[u8]) -> Result<Vec<u8>, AllocError> {
    let mut text = Vec::new(alloc);
    text.push(b'x')?;
    if let Ok(ask) = command_of(alloc, line) {
        spell(&ask, &mut text)?;
    }
    Ok(text)
}

fn stays(rt: &impl Abort, alloc: Global, line: &[u8]) -> Result<(), Fail> {
    let text = respelled(alloc, line)?;
    assert!(rt; text.as_slice().split_first() == Some((&b'x', line)));
    Ok(())
}

// The value of a gate whose list has the most entries, of all lengths from the shortest to the longest.
fn push_gate(text: &mut String) -> Result<(), AllocError> {
    text.push_str(
        "{\"base\":0,\"cycle\":1,\"extension\":0,\"invalid_rx\":false,\"ipv\":null,\"list\":[[true,7,1,0]",
    )?;
    for entry in 1..MOST_ENTRIES {
        text.push_str(match entry % 3 {
            0 => ",[false,null,4294967295,4294967295]",
            1 => ",[true,0,1,null]",
            _ => ",[false,null,70000,1]",
        })?;
    }
    text.push_str("],\"octets_exceeded\":true,\"open\":false}")
}

#[test]
fn spells_each_command(rt: HostRuntime) -> Result<(), Fail> {
    for line in LINES {
        stays(&rt, rt.alloc(), line.as_bytes())?;
    }
    Ok(())
}

#[test]
fn spells_the_longest_list(rt: HostRuntime) -> Result<(), Fail> {
    let mut line = String::from_str(
        rt.alloc(),
        "{\"do\":\"replace\",\"key\":\"gate 65535\",\"record\":",
    )?;
    push_gate(&mut line)?;
    line.push_str(",\"s\":65535}")?;
    stays(&rt, rt.alloc(), line.as_bytes())
}

#[test]
fn spells_the_longest_batch(rt: HostRuntime) -> Result<(), Fail> {
    let alloc = rt.alloc();
    let mut line = String::from_str(alloc, "{\"do\":\"batch\",\"edits\":[")?;
    for key in 0..MOST_EDITS {
        if key != 0 {
            line.push_str(",")?;
        }
        line.push_str(format!(in alloc;
            "{{\"do\":\"create\",\"key\":\"gate {key}\",\"record\":"
        )?.as_str())?;
        push_gate(&mut line)?;
        line.push_str("}")?;
    }
    line.push_str("],\"s\":1}")?;
    stays(&rt, alloc, line.as_bytes())
}
