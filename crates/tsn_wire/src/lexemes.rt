//! Numbers, flags and entries of lists, read from their lexemes, whatever white space stands between.
ghost use Rattle.std.specs.Prelude.{◌≡◌, ◌∷◌, ◌++◌, true, IfSome};
ghost use Rattle.json.specs.Lex.{operator_lexeme};
ghost use Rattle.json.specs.Word.{is_operator};
ghost use Rattle.serde_json.specs.Data.{boolean};
ghost use Rattle.tsn_records.specs.Shown.{gate_entry_value, or_null, port_entry_value, whole_data};
ghost use Rattle.tsn_wire.specs.Lexed.{lexed, ReadsValue};

use crate::cursor::Cursor;
use tsn_records::drafts::{GateEntryDraft, PortEntryDraft};

#[tactic(auto, using(crate::proofs::Scanning::number_read))]
pub fn number(text: &mut Cursor<'_>) -> Option<u64>
    ensures { IfSome result (λ n. ReadsValue 0 (lexed text.old) (whole_data n) (lexed text.new)) }
{
    text.skip();
    let number = text.number()?;
    if text.ends_word() { Some(number) } else { None }
}

#[tactic(auto, using(crate::proofs::Scanning::null_read))]
pub fn number_or_null(text: &mut Cursor<'_>) -> Option<Option<u64>>
    ensures { IfSome result (λ o. ReadsValue 0 (lexed text.old) (or_null o) (lexed text.new)) }
{
    text.skip();
    if !text.take("null") {
        let number = number(text)?;
        return Some(Some(number));
    }
    if text.ends_word() { Some(None) } else { None }
}

#[tactic(auto, using(crate::proofs::Scanning::true_read, crate::proofs::Scanning::false_read))]
pub fn flag(text: &mut Cursor<'_>) -> Option<bool>
    ensures { IfSome result (λ b. ReadsValue 0 (lexed text.old) (boolean b) (lexed text.new)) }
{
    text.skip();
    if !text.take("true") {
        text.expect("false")?;
        return if text.ends_word() { Some(false) } else { None };
    }
    if text.ends_word() { Some(true) } else { None }
}

// A mark that must come next.
pub fn passed(text: &mut Cursor<'_>, mark: u8) -> Option<()>
    requires { is_operator mark ≡ true }
    ensures { IfSome result (λ _. lexed text.old ≡ operator_lexeme mark ∷ lexed text.new) }
{
    if text.mark(mark) { Some(()) } else { None }
}

/// `[gates, interval]`
pub fn scanned_port_entry(text: &mut Cursor<'_>) -> Option<PortEntryDraft>
    ensures { IfSome result (λ e. ReadsValue 1 (lexed text.old) (port_entry_value e) (lexed text.new)) }
{
    passed(text, b'[')?;
    let gates = number(text)?;
    passed(text, b',')?;
    let interval = number(text)?;
    passed(text, b']')?;
    Some(PortEntryDraft { gates, interval })
}

/// `[open, ipv, interval, octets]`
pub fn scanned_gate_entry(text: &mut Cursor<'_>) -> Option<GateEntryDraft>
    ensures { IfSome result (λ e. ReadsValue 1 (lexed text.old) (gate_entry_value e) (lexed text.new)) }
{
    passed(text, b'[')?;
    let is_open = flag(text)?;
    passed(text, b',')?;
    let ipv = number_or_null(text)?;
    passed(text, b',')?;
    let interval = number(text)?;
    passed(text, b',')?;
    let octets = number_or_null(text)?;
    passed(text, b']')?;
    Some(GateEntryDraft {
        is_open,
        ipv,
        interval,
        octets,
    })
}
