//! Which lines are read with no tree: those of each command, compact, with their members in ascending order and in the
//! order of `docs/formats.md`, and the same with a space behind each comma and each colon; and a record ahead of its
//! key. A hello by a name alone is read by a tree.
use std::alloc::{AllocError, Global};
use std::process::Abort;
use std::test::Fail;
use tsn_wire::spelled_draft;

const LINES: &'static [&'static str] = &[
    "{\"do\":\"hello\"}",
    "{\"do\":\"create\",\"key\":\"gate 7\",\"record\":{\"base\":4611686018427387904,\"cycle\":3000,\"extension\":1,\"invalid_rx\":true,\"ipv\":7,\"list\":[[true,5,1000,150],[false,null,2000,null]],\"octets_exceeded\":false,\"open\":true},\"s\":1}",
    "{\"do\":\"create\",\"s\":1,\"key\":\"gate 7\",\"record\":{\"open\":true,\"ipv\":7,\"list\":[[true,5,1000,150],[false,null,2000,null]],\"cycle\":3000,\"extension\":1,\"base\":4611686018427387904,\"invalid_rx\":true,\"octets_exceeded\":false}}",
    "{\"do\":\"create\",\"key\":\"meter 65535\",\"record\":{\"all_red\":false,\"aware\":false,\"cbs\":4294967295,\"cf\":true,\"cir\":1000000000000,\"drop_yellow\":true,\"ebs\":6,\"eir\":5},\"s\":65535}",
    "{\"do\":\"create\",\"s\":65535,\"key\":\"meter 65535\",\"record\":{\"cir\":1000000000000,\"cbs\":4294967295,\"eir\":5,\"ebs\":6,\"cf\":true,\"aware\":false,\"drop_yellow\":true,\"all_red\":false}}",
    "{\"do\":\"replace\",\"key\":\"port 64\",\"record\":{\"base\":3,\"cycle\":1000,\"extension\":2,\"gates\":255,\"list\":[[1,300],[128,700]]},\"s\":1}",
    "{\"do\":\"replace\",\"s\":1,\"key\":\"port 64\",\"record\":{\"gates\":255,\"list\":[[1,300],[128,700]],\"cycle\":1000,\"extension\":2,\"base\":3}}",
    "{\"do\":\"replace\",\"key\":\"port 64\",\"record\":{\"base\":3,\"cycle\":1000,\"extension\":2,\"gates\":255,\"list\":[]},\"s\":1}",
    "{\"do\":\"replace\",\"s\":1,\"key\":\"port 64\",\"record\":{\"gates\":255,\"list\":[],\"cycle\":1000,\"extension\":2,\"base\":3}}",
    "{\"do\":\"replace\",\"key\":\"filter 0\",\"record\":{\"gate\":9,\"handle\":4294967295,\"max_sdu\":1500,\"meter\":null,\"oversize\":true,\"priority\":null},\"s\":2}",
    "{\"do\":\"replace\",\"s\":2,\"key\":\"filter 0\",\"record\":{\"handle\":4294967295,\"priority\":null,\"gate\":9,\"max_sdu\":1500,\"meter\":null,\"oversize\":true}}",
    "{\"record\":{\"handle\":4294967295,\"priority\":null,\"gate\":9,\"max_sdu\":1500,\"meter\":null,\"oversize\":true},\"s\":2,\"do\":\"replace\",\"key\":\"filter 0\"}",
    "{\"record\":{\"open\":true,\"ipv\":7,\"list\":[],\"cycle\":3000,\"extension\":1,\"base\":0,\"invalid_rx\":true,\"octets_exceeded\":false},\"s\":1,\"do\":\"create\",\"key\":\"gate 7\"}",
    "{\"do\":\"remove\",\"key\":\"filter 0\",\"s\":1}",
    "{\"do\":\"remove\",\"s\":1,\"key\":\"filter 0\"}",
    "{\"do\":\"undo\",\"s\":1}",
    "{\"do\":\"undo_all\",\"s\":2}",
    "{\"do\":\"redo\",\"s\":3}",
    "{\"do\":\"enable\",\"key\":\"gate 7\",\"now\":1000,\"s\":1}",
    "{\"do\":\"enable\",\"s\":1,\"key\":\"gate 7\",\"now\":1000}",
    "{\"do\":\"disable\",\"key\":\"port 64\",\"now\":1000,\"s\":1}",
    "{\"do\":\"disable\",\"s\":1,\"key\":\"port 64\",\"now\":1000}",
    "{\"do\":\"apply\",\"key\":\"port 64\",\"now\":1000,\"s\":65535}",
    "{\"do\":\"apply\",\"s\":65535,\"key\":\"port 64\",\"now\":1000}",
    "{\"do\":\"frame\",\"handle\":9,\"now\":1000,\"octets\":1522,\"priority\":3,\"s\":1,\"yellow\":true}",
    "{\"do\":\"frame\",\"s\":1,\"handle\":9,\"priority\":3,\"octets\":1522,\"yellow\":true,\"now\":1000}",
    "{\"at\":1000,\"do\":\"states\",\"key\":\"gate 7\",\"s\":1}",
    "{\"do\":\"states\",\"s\":1,\"key\":\"gate 7\",\"at\":1000}",
    "{\"do\":\"counters\",\"key\":\"filter 0\",\"s\":1}",
    "{\"do\":\"counters\",\"s\":1,\"key\":\"filter 0\"}",
    "{\"do\":\"show\",\"key\":\"meter 65535\",\"s\":1}",
    "{\"do\":\"show\",\"s\":1,\"key\":\"meter 65535\"}",
    "{\"do\":\"list\",\"kind\":\"meter\",\"s\":1}",
    "{\"do\":\"list\",\"s\":1,\"kind\":\"meter\"}",
    "{\"after\":4294967295,\"do\":\"since\",\"s\":1}",
    "{\"do\":\"since\",\"s\":1,\"after\":4294967295}",
    "{\"do\":\"settle\",\"s\":1,\"upto\":4294967295}",
    "{\"upto\":0,\"do\":\"settle\",\"s\":65535}",
    "{\"do\":\"resume\",\"s\":1}",
    "{\"do\":\"sessions\",\"s\":1}",
    "{\"do\":\"setup\",\"s\":1}",
    "{\"do\":\"batch\",\"edits\":[{\"do\":\"create\",\"key\":\"gate 7\",\"record\":{\"base\":0,\"cycle\":3000,\"extension\":1,\"invalid_rx\":true,\"ipv\":null,\"list\":[[true,5,1000,150]],\"octets_exceeded\":false,\"open\":true}},{\"do\":\"replace\",\"key\":\"filter 0\",\"record\":{\"gate\":7,\"handle\":9,\"max_sdu\":null,\"meter\":null,\"oversize\":true,\"priority\":null}},{\"do\":\"remove\",\"key\":\"meter 65535\"}],\"s\":1}",
    "{\"do\":\"batch\",\"s\":1,\"edits\":[{\"do\":\"create\",\"key\":\"gate 7\",\"record\":{\"open\":true,\"ipv\":null,\"list\":[[true,5,1000,150]],\"cycle\":3000,\"extension\":1,\"base\":0,\"invalid_rx\":true,\"octets_exceeded\":false}},{\"record\":{\"handle\":9,\"priority\":null,\"gate\":7,\"max_sdu\":null,\"meter\":null,\"oversize\":true},\"key\":\"filter 0\",\"do\":\"replace\"},{\"key\":\"meter 65535\",\"do\":\"remove\"}]}",
];

/// The same line with a space behind each comma and each colon.
fn spaced(alloc: Global, line: &[u8]) -> Result<Vec<u8>, AllocError> {
    let mut text = Vec::new(alloc);
    for byte in line {
        text.push(*byte)?;
        if *byte == b',' || *byte == b':' {
            text.push(b' ')?;
        }
    }
    Ok(text)
}

fn is_read(rt: &impl Abort, alloc: Global, line: &[u8]) {
    assert!(rt; spelled_draft(alloc, line).is_some(), "{line:?}");
}

#[test]
fn reads_each_command_with_no_tree(rt: HostRuntime) -> Result<(), Fail> {
    let alloc = rt.alloc();
    for line in LINES {
        is_read(&rt, alloc, line.as_bytes());
        is_read(&rt, alloc, spaced(alloc, line.as_bytes())?.as_slice());
    }
    Ok(())
}
