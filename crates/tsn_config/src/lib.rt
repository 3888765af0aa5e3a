//! The configuration of a bridge: a map from keys to records that is well kept at every moment, by its type.
//!
//! A `Config` is seen as one finite map from keys to records with its limits (802.1Q-2018, 12.29 and 12.31). Each key
//! and list is within the limits, each record is of its key's kind, each port is there, and each reference of a filter
//! is to a key that is there. `check` says why edits are refused, `change_of` what admitted ones do, and `make` does
//! it; `apply` makes any change that fits. The definitions of edits and changes are those of `tsn_edit`. Beside the
//! filters stand indexes of them, so that who refers to a key, and which filter has two specifications, is found
//! without going along them.
#![tactic(auto)]

ghost use Rattle.std.specs.Prelude.{◌≡◌, ℕ, IfOk, None, Some, option_map};
ghost use Rattle.std.specs.FinMap as map;
ghost use Rattle.std.specs.FinMap.{FinMap};
ghost use Rattle.std.specs.Ordering.{nat_cmp};
ghost use Rattle.tsn_table.specs.Firsts.{first_id, lesser};
ghost use Rattle.tsn_types.specs.declared.records.StreamFilter.{StreamFilter as AnyFilter};
ghost use Rattle.tsn_config.specs.Filters.{AreFilters, specifies};
ghost use Rattle.tsn_edit.specs.Configuration.{IsWellKept};
ghost use Rattle.tsn_types.specs.Lent.{lent_record};
ghost use Rattle.tsn_types.specs.declared.records.Record.TheVariants.{Filter as FilterRecord};

use crate::rows::Rows;
use std::alloc::AllocError;
use std::marker::Model;
use tsn_table::Table;
use tsn_types::keys::Key;
use tsn_types::limits::Limits;
use tsn_types::numbers::{FilterId, Handle, Priority};
use tsn_types::records::{RecordRef, StreamFilter};

mod admission;
mod applying;
mod changing;
mod filters;
mod fitting;
pub mod ids;
pub mod laws;
mod opening;
pub mod records;
mod rows;
pub mod setup;

/// A well kept configuration with its limits. `map` is the map from keys to records, and `spare` the number of
/// changes that it certainly has room for.
#[derive(Debug, Drop)]
pub struct Config {
    limits: Limits,
    rows: Rows,
}

impl Model for Config {
    ghost use Rattle.tsn_config.specs.Views.{ConfigView, config_code};
    ghost use Rattle.tsn_edit.specs.Configuration.{IsWellKept};

    ghost Value = { ConfigView };

    ghost coded = { config_code };

    ghost view = { λ a. record { limits = a.limits; map = a.rows.map; spare = a.rows.spare } };

    ghost invariant = { λ a. IsWellKept a.limits a.rows.map };
}

impl Config {
    /// The limits, which never change, and within which everything is well kept.
    pub fn limits(&self) -> Limits
        ensures limits { result ≡ self.now.limits }
        ensures kept { IsWellKept self.now.limits self.now.map }
    {
        self.limits
    }

    /// The record of the key, lent, none where the key is absent.
    pub fn get(&self, key: Key) -> Option<RecordRef<'_>>
        ensures { option_map lent_record result ≡ map.get self.now.map key }
    {
        self.rows.get(key)
    }

    /// A configuration of the same limits and an equal map. Refused only for want of memory.
    pub fn copy(&self) -> Result<Config, AllocError>
        ensures limits { IfOk result (λ copy. copy.limits ≡ self.now.limits) }
        ensures map { IfOk result (λ copy. copy.map ≡ self.now.map) }
    {
        Ok(Config {
            limits: self.limits,
            rows: self.rows.copy()?,
        })
    }

    /// The stream filters by number, as a table of their own.
    pub fn filters(&self) -> &Table<StreamFilter>
        ensures rows { (n : ℕ) → option_map FilterRecord (map.get result.now.map n) ≡ map.get self.now.map (Key.Filter n) }

        // What they refer to is there: a configuration is well kept, by its type.
        ensures kept { IsWellKept self.now.limits self.now.map }
    {
        self.rows.filters()
    }

    /// The least filter whose stream handle specification is this one, none for the wildcard, and whose priority
    /// specification is this one or the wildcard. It is found by one binary search, and by another where a filter with
    /// that handle specification has the wildcard or a lesser priority. It takes no memory.
    pub fn first_with_either(&self, handle: Option<Handle>, priority: Priority) -> Option<FilterId>
        ensures { (fs : FinMap nat_cmp AnyFilter) → AreFilters fs self.now.map →
            result ≡ lesser (first_id (specifies handle (Some priority)) (map.entries fs))
            (first_id (specifies handle None) (map.entries fs)) }
    {
        let number = self.rows.first_with_either(handle, priority)?;
        Some(FilterId::new(number).unwrap())
    }
}
