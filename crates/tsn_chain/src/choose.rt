//! The choice of a frame's filter.
//!
//! A filter that matches has one of four pairs of specifications: the frame's handle or the wildcard, with its priority
//! or the wildcard. A configuration tells the least filter of two pairs, so a frame goes along no filters.
ghost use Rattle.std.specs.Prelude.{◌≡◌, ◌<◌, ℕ, IsSome, Bool, List, Option, Some, None, false, true};
ghost use Rattle.std.specs.FinMap as map;
ghost use Rattle.std.specs.FinMap.{FinMap};
ghost use Rattle.std.specs.Ordering.{nat_cmp};
ghost use Rattle.tsn_types.specs.declared.records.StreamFilter.{StreamFilter as AnyFilter};
ghost use Rattle.tsn_config.specs.Filters.{AreFilters};
ghost use Rattle.tsn_types.specs.Numbers.{IsInstanceId};
ghost use Rattle.tsn_chain.specs.Chosen.{chosen, is_matching, IsLeast};

use tsn_config::Config;
use tsn_table::{Table, lesser};
use tsn_types::numbers::{FilterId, Handle, Priority};
use tsn_types::records::StreamFilter;

/// Whether a filter's stream handle and priority specifications match (802.1Q-2018, 8.6.5.1).
fn is_match(filter: &StreamFilter, handle: Handle, priority: Priority) -> bool
    ensures { result ≡ is_matching handle priority filter.now }
{
    filter.handle.is_none_or(|specified| specified == handle)
        && filter
            .priority
            .is_none_or(|specified| specified == priority)
}

// The least number whose filter matches.
fn least_number(filters: &Table<StreamFilter>, handle: Handle, priority: Priority) -> Option<u64>
    ensures chosen { result ≡ chosen handle priority filters.now.map }
    ensures least { IsLeast handle priority filters.now.map result }
{
    filters.first_where(|filter| is_match(filter, handle, priority))
}

/// The filter of the least number that matches a stream handle and a priority, none where no filter does. It walks the
/// table once, and takes no memory.
pub fn choose(filters: &Table<StreamFilter>, handle: Handle, priority: Priority) -> Option<FilterId>
    requires { (n : ℕ) → IsSome (map.get filters.now.map n) → IsInstanceId n }
    ensures chosen { result ≡ chosen handle priority filters.now.map }
    ensures least { IsLeast handle priority filters.now.map result }
{
    match least_number(filters, handle, priority) {
        None => None,
        Some(number) => match FilterId::new(number) {
            Ok(id) => Some(id),
            Err(_) => unreachable!(),
        },
    }
}

/// The same of a configuration's filters, by two to four binary searches.
pub fn choose_in(config: &Config, handle: Handle, priority: Priority) -> Option<FilterId>
    ensures chosen { (fs : FinMap nat_cmp AnyFilter) → AreFilters fs config.now.map → result ≡ chosen handle priority fs }
    ensures least { (fs : FinMap nat_cmp AnyFilter) → AreFilters fs config.now.map → IsLeast handle priority fs result }
{
    let own = config.first_with_either(Some(handle), priority);
    let any = config.first_with_either(None, priority);
    lesser(own, any)
}
