//! What a bridge begins with.
ghost use Rattle.std.specs.Prelude.{◌≡◌, [], None};
ghost use Rattle.tsn_config.specs.Opening.{opening_refusal, standard_limits};

use crate::records::Records;
use std::alloc::Global;
use tsn_types::limits::Limits;

/// What a bridge begins with: its limits, and the records of its first configuration.
#[derive(Debug, Drop)]
pub struct Setup {
    pub limits: Limits,
    pub records: Records,
}

impl Setup {
    /// The setup of a bridge of which nothing was said: 2 ports, tables of 16 instances, lists of up to 16 entries and
    /// no records. An opening of it is refused only for want of memory. It takes no memory itself.
    #[tactic(auto, using(crate::proofs::Accepted::accepted))]
    pub fn standard(alloc: Global) -> Setup
        ensures limits { result.limits ≡ standard_limits }
        ensures records { result.records ≡ [] }
        ensures accepted { opening_refusal result.limits result.records ≡ None }
    {
        Setup {
            limits: Limits::new(2, 16, 16, 16, 16).unwrap(),
            records: Records::new(alloc),
        }
    }
}
