//! The values of records, with the lists of ports and of gates, put behind a line that grows.
ghost use Rattle.std.specs.Prelude.{◌≡◌, ◌+◌, ◌≤◌, ◌++◌, false, length, map, OnOk, codes};
ghost use Rattle.serde_json.specs.View.{items_of};
ghost use Rattle.serde_json.specs.Written.{compact_text, items_text};
ghost use Rattle.tsn_records.specs.Shown.{record_data};
ghost use Rattle.tsn_spelling.specs.Growing.{GoesOn, Grows};

use crate::line::{MOST_HELD, make_room};
use std::alloc::AllocError;
use tsn_encoding::{
    ShortText, ShownItem, push_filter, push_gate_end, push_gate_front, push_meter, push_port_front,
};
use tsn_types::records::Record;

/// The most bytes that may be held before a record.
pub const MOST_BEFORE_RECORD: usize = 350;

/// The most bytes that are held behind a record.
pub const MOST_BEHIND_RECORD: usize = 520;

// The items with commas between them and the closing bracket.
fn put_items<I: ShownItem>(
    line: &mut Vec<u8>,
    text: &mut ShortText,
    items: &[I],
) -> Result<(), AllocError>
    ensures ok { OnOk result (GoesOn line.old.items text.old line.new.items text.new
        (items_text false (items_of (map I.shown items.now)))) }
    ensures room { OnOk result (length text.new ≤ MOST_HELD + 1) }
    ensures front { Grows line.old.items line.new.items }
{
    make_room(line, text)?;
    let Some((first, others)) = items.split_first() else {
        text.push("]");
        return Ok(());
    };
    first.push(text);
    'others: for item in others {
        make_room(line, text)?;
        text.push(",");
        item.push(text);
    }
    make_room(line, text)?;
    text.push("]");
    Ok(())
}

/// The value of a record.
pub fn put_record(
    line: &mut Vec<u8>,
    text: &mut ShortText,
    shown: &Record,
) -> Result<(), AllocError>
    requires { length text.old ≤ MOST_BEFORE_RECORD }
    ensures ok { OnOk result (GoesOn line.old.items text.old line.new.items text.new (compact_text (record_data shown.now))) }
    ensures room { OnOk result (length text.new ≤ MOST_BEHIND_RECORD) }
    ensures front { Grows line.old.items line.new.items }
{
    match shown {
        Record::Port(port) => {
            push_port_front(text, port);
            put_items(line, text, port.admin.list.as_slice())?;
            text.push("}");
            Ok(())
        }
        Record::Filter(filter) => {
            push_filter(text, filter);
            Ok(())
        }
        Record::Gate(gate) => {
            push_gate_front(text, gate);
            put_items(line, text, gate.admin.list.as_slice())?;
            push_gate_end(text, gate);
            Ok(())
        }
        Record::Meter(meter) => {
            push_meter(text, meter);
            Ok(())
        }
    }
}
