//! Acts on the list of a port or a stream gate, as the runtime does them.
ghost use Rattle.std.specs.Prelude.{◌≡◌, max, Err, IfErr, IfOk, OnErr, OnOk, option_map};
ghost use Rattle.std.specs.FinMap as map;
ghost use Rattle.tsn_types.specs.Lent.{lent_record};
ghost use Rattle.tsn_chain.specs.Acts.{HasList, KeyRefuses};
ghost use Rattle.tsn_chain.specs.Instances.{HasRunner};
ghost use Rattle.tsn_entries.specs.declared.entries.Act.TheVariants as asked;
ghost use Rattle.tsn_bridge.specs.Acts.{has_entry, says_enabled};
ghost use Rattle.tsn_bridge.specs.Doing.{Changes, Does};

use tsn_chain::runtime::Runtime;
use tsn_chain::state::Counters;
use tsn_config::Config;
use tsn_journal::entries::Act;
use tsn_types::keys::Key;
use tsn_types::numbers::Instant;
use tsn_types::records::RecordRef;
use tsn_types::refusals::Refusal;

/// Lets the runtime do an act on a key, and answers its change time. Only an apply takes memory, or is refused;
/// refused, it has changed nothing.
pub fn run_act(
    config: &Config,
    runtime: &mut Runtime,
    act: Act,
    key: Key,
    now: Instant,
) -> Result<Option<u64>, Refusal>
    requires runner { HasRunner runtime.old.runners key }
    requires list { HasList key (map.get config.now.map key) }
    ensures time { OnOk result (runtime.new.time ≡ max runtime.old.time now) }
    ensures frames { runtime.new.frames ≡ runtime.old.frames }
    ensures does { OnOk result (Does runtime.old.runners act key (map.get config.now.map key) (max runtime.old.time now)
        runtime.new.runners) }
    ensures change { IfOk result (λ change. Changes runtime.old.runners act key (map.get config.now.map key) (max runtime.old.time now)
        change) }
    ensures refused { IfErr result (λ why.
        (act ≡ asked.Apply) × KeyRefuses runtime.old.runners key (map.get config.now.map key) (Err why)) }
    ensures kept { OnErr result (runtime.new.runners ≡ runtime.old.runners) }
    ensures still { OnErr result (runtime.new.time ≡ runtime.old.time) }
{
    match act {
        Act::Enable => Ok(runtime.enable(key, now)),
        Act::Disable => {
            runtime.disable(key, now);
            Ok(None)
        }
        Act::Apply => Ok(Some(runtime.apply(config, key, now)?)),
    }
}

/// Whether what is told of a key says that its gates are enabled.
pub fn is_enabled(told: Counters) -> bool
    ensures { result ≡ says_enabled told }
{
    match told {
        Counters::Port(list) => list.enabled,
        Counters::Gate { list, .. } => list.enabled,
        _ => false,
    }
}

/// Whether the record has a list with an entry.
pub fn has_entry(found: Option<RecordRef<'_>>) -> bool
    ensures { result ≡ has_entry (option_map lent_record found.entry) }
{
    match found {
        Some(RecordRef::Port(port)) => !port.admin.list.is_empty(),
        Some(RecordRef::Gate(gate)) => !gate.admin.list.is_empty(),
        _ => false,
    }
}
