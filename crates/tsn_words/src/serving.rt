//! What a server is to serve.
ghost use Rattle.std.specs.Prelude.{◌≤◌, ◌^◌};
ghost use Rattle.std.specs.Option.{ForSome};

use crate::values::{is_flagged, number_if_given};
use clap::ArgMatches;

/// How many connections a server serves at a time where no number is given.
const STANDARD_WORKERS: u64 = 64;

/// How many connections a server serves at a time and in all, how long one may be idle, and the instant that it tells
/// of at the end.
#[derive(Clone, Copy, Debug, PartialEq, Eq)]
pub struct Serving {
    /// How many connections at a time, each by a worker, 1 to 1,000.
    pub workers: u64,
    /// How many connections in all, 1 to 65,535; or none, and there is no end of them.
    pub connections: Option<u64>,
    /// The instant, 0 to 2^62 nanoseconds; or none, and nothing is told.
    pub probe: Option<u64>,
    /// How long a connection may be idle, 1 to 86,400 seconds; or none, and for ever.
    pub idle: Option<u64>,
    /// Whether a line tells of each connection as it begins and as it ends.
    pub is_logged: bool,
    pub ghost some: { (1 ≤ workers) × ForSome connections (λ n. 1 ≤ n) },
    pub ghost few: { workers ≤ 1000 },
    pub ghost limited: { ForSome connections (λ n. n ≤ 65535) },
    pub ghost in_time: { ForSome probe (λ at. at ≤ 2 ^ 62) },
    pub ghost in_a_day: { ForSome idle (λ seconds. (1 ≤ seconds) × (seconds ≤ 86400)) },
}

impl Serving {
    ghost use Rattle.std.specs.Prelude.{Some, codes};
    ghost use Rattle.clap.specs.Words.{found_of, rows_of};
    ghost use Rattle.tsn_words.specs.Asking.{GivesServing, HasServe};

    // What is given to `serve`.
    pub(crate) fn given_in(given: &ArgMatches<'_>) -> Serving
        requires { HasServe (Some (codes "serve", rows_of (found_of given.now))) }
        ensures { GivesServing (Some (codes "serve", rows_of (found_of given.now))) result }
    {
        let workers = number_if_given(given, "workers");
        let connections = number_if_given(given, "connections");
        let probe = number_if_given(given, "probe");
        let idle = number_if_given(given, "idle");
        Serving {
            workers: workers.unwrap_or(STANDARD_WORKERS),
            connections,
            probe,
            idle,
            is_logged: is_flagged(given, "log"),
        }
    }
}
