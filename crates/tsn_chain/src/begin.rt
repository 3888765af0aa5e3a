//! The runtime that a bridge begins with: instance data for each key of a configuration, all of it new.
ghost use Rattle.std.specs.Prelude.{◌≡◌, IfOk, OnOk};
ghost use Rattle.tsn_edit.specs.Configuration.{IsWellKept};
ghost use Rattle.tsn_chain.specs.Begun.{begun_frames, begun_runners, first_change, frames_of_kind, runners_of_kind};
ghost use Rattle.tsn_chain.specs.Following.{frames_after, runners_after};

use crate::runtime::Runtime;
use std::alloc::{AllocError, Global};
use tsn_config::Config;
use tsn_config::ids::key_of;
use tsn_edit::{Change, Part};
use tsn_types::keys::{Key, Kind};

impl Runtime {
    /// A runtime of the configuration at the instant 0: of each key it has what a change from none to its record
    /// leaves. Refused only for want of memory.
    pub fn begin(alloc: Global, config: &Config) -> Result<Runtime, AllocError>
        ensures runners { IfOk result (λ new. new.runners ≡ begun_runners config.now.map) }
        ensures frames { IfOk result (λ new. new.frames ≡ begun_frames config.now.map) }
        ensures time { IfOk result (λ new. new.time ≡ 0) }
    {
        let mut runtime = Runtime::new(alloc, config.limits())?;
        runtime.begin_kind(alloc, config, Kind::Port)?;
        runtime.begin_kind(alloc, config, Kind::Filter)?;
        runtime.begin_kind(alloc, config, Kind::Gate)?;
        runtime.begin_kind(alloc, config, Kind::Meter)?;
        Ok(runtime)
    }

    // Lets the runtime follow a change from none at each key of the kind.
    fn begin_kind(&mut self, alloc: Global, config: &Config, kind: Kind) -> Result<(), AllocError>
        requires time { self.old.time ≡ 0 }
        requires kept { IsWellKept config.now.limits config.now.map }
        ensures runners { OnOk result (self.new.runners ≡ runners_of_kind config.now.map self.old.runners kind) }
        ensures frames { OnOk result (self.new.frames ≡ frames_of_kind config.now.map self.old.frames kind) }
        ensures time { self.new.time ≡ self.old.time }
    {
        let ids = config.ids(alloc, kind)?;
        for id in ids.as_slice() {
            self.begin_key(config, key_of(kind, *id))?;
        }
        Ok(())
    }

    // Lets the runtime follow a change from none to the record of the key.
    fn begin_key(&mut self, config: &Config, key: Key) -> Result<(), AllocError>
        ensures runners { OnOk result (self.new.runners ≡ runners_after self.old.runners (first_change config.now.map key)) }
        ensures frames { OnOk result (self.new.frames ≡ frames_after self.old.time self.old.frames (first_change config.now.map key)) }
        ensures time { self.new.time ≡ self.old.time }
    {
        let after = match config.get(key) {
            Some(found) => Some(found.try_clone()?),
            None => None,
        };
        self.reserve(1)?;
        let part = Part {
            key,
            before: None,
            after,
        };
        self.follow(&Change::of(part));
        Ok(())
    }
}
