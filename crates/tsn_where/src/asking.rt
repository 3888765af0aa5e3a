//! The words that tell where a command line is at fault.
use crate::commands::command_fault;
use serde_json::Value;
use std::alloc::{AllocError, Global};
use tsn_types::refusals::Refusal;

// Where a text is no JSON.
fn unread(alloc: Global, text: &str) -> Result<Option<String>, AllocError> {
    let Err(error) = Value::from_str(alloc, text) else {
        return Ok(None);
    };
    let column = error.column();
    Ok(Some(format!(in alloc; "column {column}: it is no JSON value alone")?))
}

fn told(alloc: Global, line: &[u8], why: Refusal) -> Result<Option<String>, AllocError> {
    let Ok(text) = str::from_utf8(line) else {
        return Ok(Some(String::from_str(alloc, "it is no text in UTF-8")?));
    };
    if why == Refusal::Syntax {
        return unread(alloc, text);
    }
    let Ok(value) = Value::from_str(alloc, text) else {
        return Ok(None);
    };
    match why {
        Refusal::Shape => command_fault(alloc, &value, false),
        Refusal::Range(_) => command_fault(alloc, &value, true),
        _ => Ok(None),
    }
}

/// Where a command line that was refused for this is at fault, in words. They are empty where nothing is found, and
/// where memory is wanting.
pub fn command_spot(alloc: Global, line: &[u8], why: Refusal) -> String {
    match told(alloc, line, why) {
        Ok(Some(words)) => words,
        _ => String::new(alloc),
    }
}
