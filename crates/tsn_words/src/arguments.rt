//! The command line.
ghost use Rattle.std.specs.Prelude.{◌≡◌, ◌≢◌, ℕ, List, [], ◌∷◌, Some, None, false, IfOk, IfErr, codes, map, option_map, string_bytes};
ghost use Rattle.clap.specs.Words.{app_of, first_value, found_of, kind_of, rows_of, rule_of, subcommand_of, subcommand_rows_of};
ghost use Rattle.clap.specs.Kinds.{FailsBy};
ghost use Rattle.clap.specs.Faults.{fault_of};
ghost use Rattle.tsn_bytes.specs.declared.bytes.Fault.TheVariants.{Memory};
ghost use Rattle.tsn_words.specs.Asking.{any_text, bare, check, flag, journal, journal_file, number, optional, endpoint_of, program, script, serve, setup_file, states, Asks, AsksFor, GivesListing, HasJournal, HasServe, HasStates, IsComplete, IsRefusal, IsWork, KeepsOrRefuses, TellsSomething};

use crate::kept::{Keeping, Kept, keeping_of};
use crate::look::{Look, look_of};
use crate::serving::Serving;
use crate::values::{is_flagged, number_of, text_if_given, text_of};
use clap::builder::ValueParser;
use clap::error::ErrorKind;
use clap::{Arg, ArgAction, ArgMatches, Command, Error};
use std::alloc::{AllocError, Global};
use tsn_bytes::Fault;

/// The longest time from one instant of `states` to the next, in nanoseconds.
const LONGEST_STEP: u64 = 1_000_000_000_000;

/// The most instants of `states`.
const MOST_INSTANTS: u64 = 1_000_000;

/// Where a server listens where no endpoint is given.
const STANDARD_ENDPOINT: &str = "127.0.0.1:7000";

/// The most connections that are served at a time.
const MOST_WORKERS: u64 = 1000;

/// The most connections that are served in all.
const MOST_CONNECTIONS: u64 = 65_535;

/// The longest time that a connection may be idle, in seconds: a day.
const LONGEST_IDLE: u64 = 86_400;

/// The last instant of a server's end.
const LAST_PROBE: u64 = 1 << 62;

/// The greatest number of an entry that `journal` takes.
const LAST_ENTRY: u64 = (1 << 32) - 1;

/// Ends the help on the program.
const EXAMPLES: &str = "Examples:
  tsnd check bridge.toml
  tsnd script bridge.toml < commands.jsonl
  tsnd serve bridge.toml --journal bridge.journal
  tsnd journal bridge.journal --since 40
  tsnd states bridge.toml --port 1 --from 0 --step 250000 --count 4";

/// Ends the help on `script`.
const SCRIPT_EXAMPLE: &str = "Example:
  tsnd script bridge.toml < commands.jsonl
  tsnd script bridge.toml --journal bridge.journal < commands.jsonl";

/// Ends the help on `states`.
const STATES_EXAMPLE: &str = "Example:
  tsnd states bridge.toml --port 1 --from 0 --step 250000 --count 4";

/// Ends the help on `serve`.
const SERVE_EXAMPLE: &str = "Example, and a client in another terminal:
  tsnd serve bridge.toml --journal bridge.journal
  echo '{\"do\":\"hello\"}' | nc -N 127.0.0.1 7000";

/// Ends the help on `check`.
const CHECK_EXAMPLE: &str = "Example:
  tsnd check bridge.toml
  tsnd check --lines < commands.jsonl";

/// Ends the help on `journal`.
const JOURNAL_EXAMPLE: &str = "Example:
  tsnd journal bridge.journal --since 40
  tsnd journal bridge.journal --setup > bridge.toml";

/// Why words that are no UTF-8 are refused.
const NO_TEXT: &str = "invalid UTF-8 was detected in one or more arguments";

/// Why more than one look at a journal is refused.
const ONE_LOOK: &str = "at most one of --since, --diff, --setup, --begin and --mend may be given";

/// Why a check of nothing, and one of a setup and of lines at once, is refused.
const ONE_CHECK: &str = "either FILE or --lines is wanted";

/// Why syncs of another kind than there is are refused.
const OTHER_SYNCS: &str = "--sync may be none alone";

/// Why syncs with no journal are refused.
const NO_JOURNAL: &str = "--sync goes with --journal";

/// How the program is called.
const USAGE: &str = "Usage: tsnd <COMMAND>\n";

/// Which states of a port are printed: those at an instant, and then at even steps.
#[derive(Clone, Copy, Debug, PartialEq, Eq)]
pub struct Listing {
    /// The port's number; whether the bridge has it is asked later.
    pub port: u64,
    /// The first instant, in nanoseconds; whether it is one, at most 2^62, is asked later.
    pub from: u64,
    /// The time from one instant to the next, 0 to 10^12 nanoseconds.
    pub step: u64,
    /// How many instants, 1 to 1,000,000.
    pub count: u64,
}

/// What a command line asks for.
#[derive(Drop)]
pub enum Asked {
    /// Answer the script on standard input, from the setup of this file or from the standard one, and keep what the
    /// sessions do in this journal, if one is named.
    Script {
        file: Option<String>,
        kept: Option<Kept>,
    },
    /// Print the states of a port, from the setup of this file.
    States {
        file: String,
        listing: Listing,
    },
    /// Serve connections where this says, an IP address and port that is read later, from the setup of this file or
    /// from the standard one, and keep what the sessions do in this journal, if one is named.
    Serve {
        file: Option<String>,
        listen: String,
        serving: Serving,
        kept: Option<Kept>,
    },
    /// Say whether the setup of this file opens a bridge, and what there is in it.
    Check {
        file: String,
    },
    /// Say which of the command lines on standard input are refused before they are asked, and where they are at fault.
    Lines,
    /// Look at the journal of this file.
    Journal {
        file: String,
        look: Look,
    },
    /// Show this text, help or the version.
    Shown(String),
    /// Say by this text why the command line is refused.
    Refused(String),
}

impl Asked {
    ghost use Rattle.tsn_words.specs.Asking.{file_of};

    /// The file of the setup that is named, if one is.
    pub fn file(&self) -> Option<&str>
        ensures { option_map (λ name. name.now) result ≡ file_of self.now }
    {
        match self {
            Asked::Script { file, .. } => file.as_ref().map(String::as_str),
            Asked::States { file, .. } => Some(file.as_str()),
            Asked::Serve { file, .. } => file.as_ref().map(String::as_str),
            Asked::Check { file } => Some(file.as_str()),
            Asked::Lines | Asked::Journal { .. } | Asked::Shown(_) | Asked::Refused(_) => None,
        }
    }
}

// The file of a setup, which may be wanted.
fn setup_file<'a>(alloc: Global, is_wanted: bool) -> Arg<'a>
    ensures rule { rule_of result ≡ setup_file is_wanted }
    ensures local { result.global ≡ false }
{
    Arg::new(alloc, "FILE")
        .required(is_wanted)
        .help("The setup of the bridge, a TOML document")
}

// An option that may be left out, and else wants a text, whatever it is.
fn text_or_none<'a>(alloc: Global, name: &'a str, help: &'a str) -> Arg<'a>
    ensures rule { rule_of result ≡ optional (any_text name.entry.now) }
    ensures local { result.global ≡ false }
{
    Arg::new(alloc, name).long(name).help(help)
}

// An option that wants a number in its range.
fn number<'a>(alloc: Global, name: &'a str, help: &'a str, least: u64, most: u64) -> Arg<'a>
    ensures rule { rule_of result ≡ number name.entry.now least most }
    ensures local { result.global ≡ false }
{
    Arg::new(alloc, name)
        .long(name)
        .required(true)
        .value_parser(ValueParser::unsigned(least, most))
        .help(help)
}

// An option that may be left out, and else wants a number in its range.
fn number_or_none<'a>(alloc: Global, name: &'a str, help: &'a str, least: u64, most: u64) -> Arg<'a>
    ensures rule { rule_of result ≡ optional (number name.entry.now least most) }
    ensures local { result.global ≡ false }
{
    number(alloc, name, help, least, most).required(false)
}

// An option that takes no value.
fn flag<'a>(alloc: Global, name: &'a str, help: &'a str) -> Arg<'a>
    ensures rule { rule_of result ≡ flag name.entry.now }
    ensures local { result.global ≡ false }
{
    Arg::new(alloc, name)
        .long(name)
        .action(ArgAction::SetTrue)
        .help(help)
}

// The help on its options, and on those of `serve` of the same names.
const KEPT: &str = "The journal file that keeps what the sessions do; made where it is not there";

const SYNC: &str =
    "none: replies don't wait for the disk, and a loss of power may lose what they told";

fn script<'a>(alloc: Global) -> Result<Command<'a>, AllocError>
    ensures { IfOk result (λ c. app_of c ≡ script) }
{
    Command::new(alloc, "script")
        .about("Answers the command lines on standard input, one reply line each")
        .after_help(SCRIPT_EXAMPLE)
        .arg(setup_file(alloc, false))?
        .arg(text_or_none(alloc, "journal", KEPT))?
        .arg(text_or_none(alloc, "sync", SYNC))
}

fn states<'a>(alloc: Global) -> Result<Command<'a>, AllocError>
    ensures { IfOk result (λ c. app_of c ≡ states) }
{
    Command::new(alloc, "states")
        .about("Prints the gate states of a port, enabled at the first instant, one line each")
        .after_help(STATES_EXAMPLE)
        .arg(setup_file(alloc, true))?
        .arg(number(alloc, "port", "The port", 0, u64::MAX))?
        .arg(number(alloc, "from", "The first instant", 0, u64::MAX))?
        .arg(number(alloc, "step", "The time to the next", 0, LONGEST_STEP))?
        .arg(number(alloc, "count", "How many instants", 1, MOST_INSTANTS))
}

// The help on its other options.
const LISTEN: &str =
    "Where it listens: an IP address and port, 0 being one that is free, or unix:PATH [127.0.0.1:7000]";

const WORKERS: &str = "How many connections at a time, 1 to 1000 [64]";

const CONNECTIONS: &str = "How many connections in all, 1 to 65535 [without end]";

const PROBE: &str = "The instant of the gates that it prints at the end [prints nothing]";

const IDLE: &str = "After how many idle seconds a connection is ended, 1 to 86400 [never]";

const LOG: &str = "Tells on standard error of each connection, as it begins and ends";

fn serve<'a>(alloc: Global) -> Result<Command<'a>, AllocError>
    ensures { IfOk result (λ c. app_of c ≡ serve) }
{
    Command::new(alloc, "serve")
        .about("Answers the command lines of connections")
        .after_help(SERVE_EXAMPLE)
        .arg(setup_file(alloc, false))?
        .arg(text_or_none(alloc, "listen", LISTEN))?
        .arg(number_or_none(alloc, "workers", WORKERS, 1, MOST_WORKERS))?
        .arg(number_or_none(alloc, "connections", CONNECTIONS, 1, MOST_CONNECTIONS))?
        .arg(number_or_none(alloc, "probe", PROBE, 0, LAST_PROBE))?
        .arg(number_or_none(alloc, "idle", IDLE, 1, LONGEST_IDLE))?
        .arg(text_or_none(alloc, "journal", KEPT))?
        .arg(text_or_none(alloc, "sync", SYNC))?
        .arg(flag(alloc, "log", LOG))
}

// The help on its option.
const LINES: &str = "Says which of the command lines on standard input are at fault, and where";

fn check<'a>(alloc: Global) -> Result<Command<'a>, AllocError>
    ensures { IfOk result (λ c. app_of c ≡ check) }
{
    Command::new(alloc, "check")
        .about("Says whether a setup opens a bridge, and what is in it or where it is at fault")
        .after_help(CHECK_EXAMPLE)
        .arg(setup_file(alloc, false))?
        .arg(flag(alloc, "lines", LINES))
}

// The file of a journal.
fn journal_file<'a>(alloc: Global) -> Arg<'a>
    ensures rule { rule_of result ≡ journal_file }
    ensures local { result.global ≡ false }
{
    Arg::new(alloc, "JOURNAL")
        .required(true)
        .help("The journal file")
}

// The help on its options.
const SINCE: &str = "Tells the entries behind this number, a line each";

const DIFF: &str = "Tells what this entry changed";

const SETUP: &str = "Tells the configuration at its end, as a setup";

const BEGIN: &str = "Makes a new journal of this file, which begins with that configuration";

const MEND: &str = "Moves what is behind the last good line to JOURNAL.cut";

fn journal<'a>(alloc: Global) -> Result<Command<'a>, AllocError>
    ensures { IfOk result (λ c. app_of c ≡ journal) }
{
    Command::new(alloc, "journal")
        .about("Says what is in a journal file")
        .after_help(JOURNAL_EXAMPLE)
        .arg(journal_file(alloc))?
        .arg(number_or_none(alloc, "since", SINCE, 0, LAST_ENTRY))?
        .arg(number_or_none(alloc, "diff", DIFF, 1, LAST_ENTRY))?
        .arg(flag(alloc, "setup", SETUP))?
        .arg(text_or_none(alloc, "begin", BEGIN))?
        .arg(flag(alloc, "mend", MEND))
}

// The program, but for its subcommands.
fn bare<'a>(alloc: Global) -> Command<'a>
    ensures { app_of result ≡ bare }
{
    Command::new(alloc, "tsnd")
        .about("The configuration service of one time-aware bridge")
        .after_help(EXAMPLES)
        .version("0.1.0")
        .subcommand_required(true)
}

// The command line that the program takes.
fn command<'a>(alloc: Global) -> Result<Command<'a>, AllocError>
    ensures { IfOk result (λ c. app_of c ≡ program) }
{
    bare(alloc)
        .subcommand(script(alloc)?)?
        .subcommand(states(alloc)?)?
        .subcommand(serve(alloc)?)?
        .subcommand(check(alloc)?)?
        .subcommand(journal(alloc)?)
}

// What the words give, or what is wrong with them.
fn parsed<'a>(alloc: Global, words: &'a [String]) -> Result<ArgMatches<'a>, Error>
    ensures kinds { FailsBy (fault_of program (map string_bytes words.now)) result }
    ensures given { IfOk result (λ m. subcommand_rows_of m
        ≡ subcommand_of program (map string_bytes words.now)) }
    ensures script { (name : List ℕ) → map string_bytes words.now ≡ name ∷ codes "script" ∷ []
        → IfErr result (λ e. kind_of e ≡ ErrorKind.OutOfMemory) }
{
    command(alloc)?.try_get_matches_from(words)
}

// The numbers that are given to `states`.
fn listing_of(given: &ArgMatches<'_>) -> Listing
    requires { HasStates (Some (codes "states", rows_of (found_of given.now))) }
    ensures { GivesListing (Some (codes "states", rows_of (found_of given.now))) result }
{
    Listing {
        port: number_of(given, "port"),
        from: number_of(given, "from"),
        step: number_of(given, "step"),
        count: number_of(given, "count"),
    }
}

// The states of a port, from the setup and with the numbers that are given.
fn states_of(alloc: Global, given: &ArgMatches<'_>) -> Result<Asked, AllocError>
    requires { HasStates (Some (codes "states", rows_of (found_of given.now))) }
    ensures asked { IfOk result (AsksFor (Some (codes "states", rows_of (found_of given.now)))) }
    ensures told { IfOk result TellsSomething }
{
    let file = text_of(alloc, given, "FILE")?;
    let listing = listing_of(given);
    Ok(Asked::States { file, listing })
}

// The journal that is given, if one is; or the words are refused.
fn kept_of(alloc: Global, given: &ArgMatches<'_>) -> Result<Result<Option<Kept>, Asked>, AllocError>
    ensures { IfOk result (KeepsOrRefuses (first_value (found_of given.now) (codes "journal"))
        (first_value (found_of given.now) (codes "sync"))) }
{
    match keeping_of(alloc, given)? {
        Keeping::Given(kept) => Ok(Ok(kept)),
        Keeping::OtherSyncs => Ok(Err(refused_for(alloc, OTHER_SYNCS)?)),
        Keeping::NoJournal => Ok(Err(refused_for(alloc, NO_JOURNAL)?)),
    }
}

// The endpoint that is given, or the standard one.
fn endpoint_of(alloc: Global, given: &ArgMatches<'_>) -> Result<String, AllocError>
    ensures { IfOk result (λ endpoint. endpoint_of (first_value (found_of given.now) (codes "listen")) ≡ string_bytes endpoint) }
{
    match text_if_given(alloc, given, "listen")? {
        Some(endpoint) => Ok(endpoint),
        None => String::from_str(alloc, STANDARD_ENDPOINT),
    }
}

// A server, from the setup, at the endpoint, with the numbers and with the journal that are given.
fn serve_of(alloc: Global, given: &ArgMatches<'_>) -> Result<Asked, AllocError>
    requires { HasServe (Some (codes "serve", rows_of (found_of given.now))) }
    ensures asked { IfOk result (AsksFor (Some (codes "serve", rows_of (found_of given.now)))) }
    ensures told { IfOk result TellsSomething }
{
    let file = text_if_given(alloc, given, "FILE")?;
    let listen = endpoint_of(alloc, given)?;
    let serving = Serving::given_in(given);
    match kept_of(alloc, given)? {
        Ok(kept) => Ok(Asked::Serve {
            file,
            listen,
            serving,
            kept,
        }),
        Err(refused) => Ok(refused),
    }
}

// A look at the setup that is given, or at command lines. Neither is refused, and so are both.
fn check_of(alloc: Global, given: &ArgMatches<'_>) -> Result<Asked, AllocError>
    ensures asked { IfOk result (AsksFor (Some (codes "check", rows_of (found_of given.now)))) }
    ensures told { IfOk result TellsSomething }
{
    let file = text_if_given(alloc, given, "FILE")?;
    match (file, is_flagged(given, "lines")) {
        (Some(file), false) => Ok(Asked::Check { file }),
        (None, true) => Ok(Asked::Lines),
        (Some(_), true) => refused_for(alloc, ONE_CHECK),
        (None, false) => refused_for(alloc, ONE_CHECK),
    }
}

// A script, from the setup and with the journal that are given.
fn script_of(alloc: Global, given: &ArgMatches<'_>) -> Result<Asked, AllocError>
    ensures asked { IfOk result (AsksFor (Some (codes "script", rows_of (found_of given.now)))) }
    ensures told { IfOk result TellsSomething }
{
    let setup = text_if_given(alloc, given, "FILE")?;
    match kept_of(alloc, given)? {
        Ok(kept) => Ok(Asked::Script { file: setup, kept }),
        Err(refused) => Ok(refused),
    }
}

// The look at the journal that is given. More than one is refused.
fn journal_of(alloc: Global, given: &ArgMatches<'_>) -> Result<Asked, AllocError>
    requires { HasJournal (Some (codes "journal", rows_of (found_of given.now))) }
    ensures asked { IfOk result (AsksFor (Some (codes "journal", rows_of (found_of given.now)))) }
    ensures told { IfOk result TellsSomething }
{
    let Some(look) = look_of(alloc, given)? else {
        return refused_for(alloc, ONE_LOOK);
    };
    let file = text_of(alloc, given, "JOURNAL")?;
    Ok(Asked::Journal { file, look })
}

// What the words ask for, by their subcommand and what they give to it.
fn asked_of(alloc: Global, matches: &ArgMatches<'_>) -> Result<Asked, AllocError>
    requires { IsComplete (subcommand_rows_of matches.now) }
    ensures asked { IfOk result (AsksFor (subcommand_rows_of matches.now)) }
    ensures told { IfOk result TellsSomething }
{
    let Some((name, given)) = matches.subcommand() else {
        unreachable!();
    };
    if name == "states" {
        states_of(alloc, given)
    } else if name == "serve" {
        serve_of(alloc, given)
    } else if name == "check" {
        check_of(alloc, given)
    } else if name == "journal" {
        journal_of(alloc, given)
    } else {
        script_of(alloc, given)
    }
}

// What an error says. Where `clap` gave it no text, which its contracts don't rule out, it says how the program is
// called.
fn saying_of(alloc: Global, error: &Error) -> Result<String, AllocError>
    ensures { IfOk result (λ text. string_bytes text ≢ []) }
{
    let text = format!(in alloc; "{error}")?;
    if text.is_empty() {
        String::from_str(alloc, USAGE)
    } else {
        Ok(text)
    }
}

// Why words are refused that `clap` itself does not refuse.
fn reason_of(alloc: Global, kind: ErrorKind, reason: &str) -> Result<String, AllocError>
    ensures { IfOk result (λ text. string_bytes text ≢ []) }
{
    let error = command(alloc)?.error(kind, reason)?;
    saying_of(alloc, &error)
}

// Words that `clap` takes are refused by this reason.
fn refused_for(alloc: Global, reason: &str) -> Result<Asked, AllocError>
    ensures { IfOk result (λ asked. IsRefusal asked × TellsSomething asked) }
{
    let text = reason_of(alloc, ErrorKind::ArgumentConflict, reason)?;
    Ok(Asked::Refused(text))
}

fn refused_as_no_text(alloc: Global) -> Result<Asked, Fault>
    ensures ok { IfOk result (Asks None) }
    ensures told { IfOk result TellsSomething }
    ensures memory { IfErr result (λ e. e ≡ Memory) }
{
    let Ok(reason) = reason_of(alloc, ErrorKind::InvalidValue, NO_TEXT) else {
        return Err(Fault::Memory);
    };
    Ok(Asked::Refused(reason))
}

/// What the words ask for, the program's name first, or none where a word is no UTF-8. A text to show or to refuse by
/// is not empty. It is refused only for want of memory.
pub fn read_words(alloc: Global, words: Option<&[String]>) -> Result<Asked, Fault>
    ensures ok { IfOk result (Asks (option_map (λ w. map string_bytes w.now) words.entry)) }
    ensures script { (name : List ℕ)
        → option_map (λ w. map string_bytes w.now) words.entry ≡ Some (name ∷ codes "script" ∷ [])
        → IfOk result IsWork }
    ensures told { IfOk result TellsSomething }
    ensures memory { IfErr result (λ e. e ≡ Memory) }
{
    let Some(words) = words else {
        return refused_as_no_text(alloc);
    };
    let error = match parsed(alloc, words) {
        Ok(matches) => return asked_of(alloc, &matches).map_err(|_| Fault::Memory),
        Err(error) => error,
    };
    if error.kind() == ErrorKind::OutOfMemory {
        return Err(Fault::Memory);
    }
    let Ok(text) = saying_of(alloc, &error) else {
        return Err(Fault::Memory);
    };
    if error.use_stderr() {
        Ok(Asked::Refused(text))
    } else {
        Ok(Asked::Shown(text))
    }
}
