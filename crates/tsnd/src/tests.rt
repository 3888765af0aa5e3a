//! What the process is given.
use crate::words_of;
use std::test::Fail;

#[test]
fn the_words_of_the_process_begin_with_its_name(rt: HostRuntime) -> Result<(), Fail> {
    match words_of(&rt) {
        Ok(words) => assert!(rt; matches!(&words, Some(words) if !words.is_empty())),
        Err(_) => return Err(Fail::from("no words")),
    }
    Ok(())
}
