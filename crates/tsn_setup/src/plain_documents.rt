//! Whole documents in the plain spelling: the limits, and then tables under headers in double brackets.
//!
//! They are read without a tree of values. A document that has anything else, one that is refused for its syntax or its
//! shape, and one for which memory is refused, is left to `toml`.
ghost use Rattle.std.specs.Prelude.{◌≡◌, ◌++◌, [], Some, Ok, IfSome};
ghost use Rattle.toml.specs.Data.{Data};
ghost use Rattle.tsn_setup.specs.Plain.{ReadsWhole};
ghost use Rattle.tsn_setup.specs.PlainTrays.{document_trays, HasOneMore};
ghost use Rattle.tsn_setup.specs.Setups.{document_of, setup_shape};

use crate::drafts::{LimitsDraft, TableDraft};
use crate::gathered::table_lines;
use crate::plain::header;
use crate::plain_tables::plain_table;
use std::alloc::Global;
use toml_parser::text::{first, skip_blank};
use tsn_types::keys::Kind;

/// The tables of a document, as far as they were read, each kind in the order of the text.
#[derive(Drop)]
pub struct DocumentTables {
    pub ports: Vec<TableDraft>,
    pub filters: Vec<TableDraft>,
    pub gates: Vec<TableDraft>,
    pub meters: Vec<TableDraft>,
}

impl DocumentTables {
    fn none(alloc: Global) -> DocumentTables
        ensures ports { result.ports.items ≡ [] }
        ensures filters { result.filters.items ≡ [] }
        ensures gates { result.gates.items ≡ [] }
        ensures meters { result.meters.items ≡ [] }
    {
        DocumentTables {
            ports: Vec::new(alloc),
            filters: Vec::new(alloc),
            gates: Vec::new(alloc),
            meters: Vec::new(alloc),
        }
    }

    fn push(&mut self, kind: Kind, draft: TableDraft) -> Option<()>
        ensures { IfSome result (λ _. HasOneMore kind draft self.old self.new) }
    {
        match kind {
            Kind::Port => self.ports.push(draft).ok(),
            Kind::Filter => self.filters.push(draft).ok(),
            Kind::Gate => self.gates.push(draft).ok(),
            Kind::Meter => self.meters.push(draft).ok(),
        }
    }

    // The tables of all kinds, one kind behind another.
    fn joined(self) -> Option<Vec<TableDraft>>
        ensures { IfSome result (λ tables. tables.items
            ≡ self.ports.items ++ self.filters.items ++ self.gates.items ++ self.meters.items) }
    {
        let DocumentTables {
            ports: mut tables,
            mut filters,
            mut gates,
            mut meters,
        } = self;
        tables.append(&mut filters).ok()?;
        tables.append(&mut gates).ok()?;
        tables.append(&mut meters).ok()?;
        Some(tables)
    }
}

// The first byte of a byte order mark.
const MARK: u8 = 0xEF;

fn document(alloc: Global, text: &str) -> Option<(LimitsDraft, DocumentTables)>
    ensures { IfSome result (λ p. ReadsWhole text.now (document_trays p.0 p.1)) }
{
    if first(text) == MARK {
        return None;
    }
    let (limits, behind) = table_lines::<LimitsDraft>(alloc, text)?;
    let mut all = DocumentTables::none(alloc);
    let mut rest = behind;
    'tables: for _ in 0..text.len() {
        let start = skip_blank(rest, true);
        if start.is_empty() {
            return Some((limits, all));
        }
        let (kind, inner) = header(start)?;
        let (draft, after) = plain_table(alloc, kind, inner)?;
        all.push(kind, draft)?;
        rest = after;
    }
    None
}

/// The limits and the tables of a document in the plain spelling. None where it is another or none, and where memory is
/// refused.
pub fn plain_draft(alloc: Global, text: &[u8]) -> Option<(LimitsDraft, Vec<TableDraft>)>
    ensures { IfSome result (λ p. (d : Data) × ((document_of text.now ≡ Some d) × (setup_shape d ≡ Ok (p.0, p.1.items)))) }
{
    let Ok(text) = std::str::from_utf8(text) else {
        return None;
    };
    let (limits, all) = document(alloc, text)?;
    let tables = all.joined()?;
    Some((limits, tables))
}
