//! The lines of remarks.
ghost use Rattle.std.specs.Prelude.{◌≡◌, ◌++◌, decimal, OnOk};
ghost use Rattle.tsn_remarks.specs.Remarks.{list_line, name, reference_line};

use std::alloc::AllocError;
use tsn_export::PlainText;
use tsn_types::keys::Key;

// Puts a kind and a number at the end.
fn push_instance(text: &mut PlainText, kind: &str, number: u64) -> Result<(), AllocError>
    ensures { OnOk result (text.new ≡ text.old ++ (kind.now ++ decimal number)) }
{
    text.push(kind)?;
    text.push_number(number)
}

// Puts the key's kind and number at the end.
fn push_name(text: &mut PlainText, key: &Key) -> Result<(), AllocError>
    ensures { OnOk result (text.new ≡ text.old ++ name key.now) }
{
    match key {
        Key::Port(id) => push_instance(text, "port ", id.get()),
        Key::Filter(id) => push_instance(text, "filter ", id.get()),
        Key::Gate(id) => push_instance(text, "gate ", id.get()),
        Key::Meter(id) => push_instance(text, "meter ", id.get()),
    }
}

// Puts the line on a list at the end.
pub(crate) fn list_line(
    text: &mut PlainText,
    key: &Key,
    taken: u64,
    cycle: u64,
) -> Result<(), AllocError>
    ensures { OnOk result (text.new ≡ text.old ++ list_line key.now taken cycle) }
{
    push_name(text, key)?;
    text.push(": its list takes ")?;
    text.push_number(taken)?;
    text.push(" ns of a cycle of ")?;
    text.push_number(cycle)?;
    text.push(" ns\n")
}

// Puts the line on the references to a key at the end.
pub(crate) fn reference_line(text: &mut PlainText, key: &Key) -> Result<(), AllocError>
    ensures { OnOk result (text.new ≡ text.old ++ reference_line key.now) }
{
    push_name(text, key)?;
    text.push(": no filter refers to it\n")
}
