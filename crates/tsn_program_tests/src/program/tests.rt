//! The program over words and bytes in memory: a script, states and a refused setup, as `main` hands them in, and what
//! no run of the program brings about: a reader and a writer that fail, how much of a setup is read, and the line of
//! each failure. Words, setups and states are seen through the program (`examples/tables`, `examples/check`).
ghost use Rattle.std.specs.Prelude.{IfOk};
ghost use Rattle.tsn_program.specs.Program.{IsAlone};

use crate::comparing::same;
use std::alloc::{AllocError, Global};
use std::process::Abort;
use std::test::Fail;
use tsn_bytes::{Buffered, ByteOut, Failing, Fault, MemIn, MemOut};
use tsn_failures::{Failure, fail, read_setup};
use tsn_program::run;
use tsn_types::keys::Key;
use tsn_types::numbers::GateId;
use tsn_types::refusals::{Field, Refusal};
use tsn_words::{Asked, Look, Syncs, read_words};

const SCRIPT: &'static [u8] = b"{\"do\":\"hello\"}\n{\"do\":\"undo\",\"s\":1}\n";

const REPLIES: &'static [u8] = b"{\"session\":1}\n{\"refused\":10,\"why\":\"nothing_to_undo\"}\n";

// A filter on gate 4, which is not there.
const DANGLING: &'static [u8] = b"[[filter]]\nid = 0\ngate = 4\noversize = false\n";

// A port with two entries and a cycle of a microsecond.
const TWO_ENTRIES: &'static [u8] =
    b"[[port]]\nid = 1\ngates = 255\ncycle = 1000\nextension = 0\nbase = 0\nlist = [{gates = 1, interval = 300}, {gates = 128, interval = 700}]\n";

const STATES: &'static [&'static str] = &[
    "states",
    "cell.toml",
    "--port",
    "1",
    "--from",
    "2500",
    "--step",
    "400",
    "--count",
    "3",
];

// The program's name and these words.
fn with_name(alloc: Global, more: &[&str]) -> Result<Vec<String>, AllocError> {
    let mut words = Vec::new(alloc);
    words.push(String::from_str(alloc, "tsnd")?)?;
    for word in more {
        words.push(String::from_str(alloc, word)?)?;
    }
    Ok(words)
}

/// What a run is given: its words, the text of its setup, its input, and the calls at which its input and its output
/// fail.
#[derive(Clone, Copy, Drop)]
struct Given {
    words: &'static [&'static str],
    setup: &'static [u8],
    input: &'static [u8],
    reads_before: Option<u64>,
    puts_before: Option<(u64, Failing)>,
}

impl Given {
    /// A run of these words with the setup, on the script.
    fn new(words: &'static [&'static str], setup: &'static [u8]) -> Given {
        Given {
            words,
            setup,
            input: SCRIPT,
            reads_before: None,
            puts_before: None,
        }
    }
}

/// What the words ask for.
fn read(alloc: Global, words: &[&str]) -> Result<Asked, Fail> {
    let words = with_name(alloc, words)?;
    match read_words(alloc, Some(words.as_slice())) {
        Ok(asked) => Ok(asked),
        Err(_) => Err(Fail::from("out of memory")),
    }
}

/// What the words ask for, which is no connections and no journal.
fn asked(alloc: Global, words: &[&str]) -> Result<Asked, Fail>
    ensures { IfOk result IsAlone }
{
    match read(alloc, words)? {
        Asked::Serve { .. } => Err(Fail::from("connections are asked for")),
        Asked::Lines | Asked::Journal { .. } | Asked::Script { kept: Some(_), .. } => {
            Err(Fail::from("a journal is asked for"))
        }
        asked => Ok(asked),
    }
}

/// What a run left: its status, what it wrote and what it said.
#[derive(Drop)]
struct Left {
    status: u8,
    output: Buffered<MemOut>,
    errors: MemOut,
}

/// What is there before a run.
fn nothing_left(alloc: Global, given: &Given) -> Result<Left, AllocError> {
    let bytes = Vec::with_capacity(alloc, 1000)?;
    let output = Buffered::new(alloc, MemOut::new(bytes, 1000, given.puts_before))?;
    let errors = MemOut::new(Vec::with_capacity(alloc, 1000)?, 1000, None);
    Ok(Left {
        status: 0,
        output,
        errors,
    })
}

/// Runs the program on the input that is given.
fn run_on_input(
    alloc: Global,
    asked: &Asked,
    given: &Given,
    left: &mut Left,
) -> Result<(), AllocError>
    requires { IsAlone asked.now }
{
    let mut input = MemIn::new(Vec::from_slice(alloc, given.input)?, 15, given.reads_before);
    left.status = run(
        alloc,
        asked,
        given.setup,
        &mut input,
        &mut left.output,
        &mut left.errors,
    );
    Ok(())
}

/// Runs the program, and fails where memory was wanting.
fn left_by(alloc: Global, given: &Given) -> Result<Left, Fail> {
    let asked = asked(alloc, given.words)?;
    let mut left = nothing_left(alloc, given)?;
    run_on_input(alloc, &asked, given, &mut left)?;
    if left.errors.as_slice() == b"tsnd: out of memory\n".as_slice() {
        return Err(Fail::from("out of memory"));
    }
    Ok(left)
}

/// Runs the program, which ends with the status, and with just these texts on its output and its errors.
fn ends(
    rt: &impl Abort,
    alloc: Global,
    given: &Given,
    status: u8,
    output: &[u8],
    errors: &[u8],
) -> Result<(), Fail> {
    let left = left_by(alloc, given)?;
    same(rt, &left.status, &status);
    same(rt, &left.output.inner().as_slice(), &output);
    same(rt, &left.errors.as_slice(), &errors);
    Ok(())
}

/// All lines are answered, and where a read fails, those that ended by then.
#[test]
fn a_script_is_answered(rt: HostRuntime) -> Result<(), Fail> {
    let given = Given::new(&["script"], b"");
    ends(&rt, rt.alloc(), &given, 0, REPLIES, b"")?;
    let failing = Given {
        reads_before: Some(1),
        ..given
    };
    let (one, line) = (b"{\"session\":1}\n", b"tsnd: read failed\n");
    ends(&rt, rt.alloc(), &failing, 1, one, line)
}

#[test]
fn states_are_printed(rt: HostRuntime) -> Result<(), Fail> {
    let given = Given::new(STATES, TWO_ENTRIES);
    let lines = b"2500 ff\n2900 ff\n3300 80\n";
    ends(&rt, rt.alloc(), &given, 0, lines, b"")
}

#[test]
fn a_setup_that_is_refused_is_told(rt: HostRuntime) -> Result<(), Fail> {
    let cases = [
        (DANGLING, b"tsnd: refused 8 dangling\n".as_slice()),
        (
            b"ports = \n".as_slice(),
            b"tsnd: refused 2 syntax\n".as_slice(),
        ),
        (
            b"port = 1\n".as_slice(),
            b"tsnd: refused 3 shape\n".as_slice(),
        ),
        (
            b"ports = 65\n".as_slice(),
            b"tsnd: refused 4 range\n".as_slice(),
        ),
    ];
    for (setup, line) in cases {
        let given = Given::new(&["script", "cell.toml"], setup);
        ends(&rt, rt.alloc(), &given, 1, b"", line)?;
    }
    Ok(())
}

#[test]
fn a_failed_write_is_told(rt: HostRuntime) -> Result<(), Fail> {
    let cases: [&'static [&'static str]; 4] = [&["script"], STATES, &["--help"], &["--version"]];
    for failing in [Failing::Error, Failing::Nothing] {
        for words in cases {
            let given = Given {
                puts_before: Some((0, failing)),
                ..Given::new(words, TWO_ENTRIES)
            };
            ends(&rt, rt.alloc(), &given, 1, b"", b"tsnd: write failed\n")?;
        }
    }
    Ok(())
}

/// The failure ends with status 1 and this line, written in pieces of seven bytes.
fn tells(
    rt: &impl Abort,
    alloc: Global,
    fails: Option<(u64, Failing)>,
    failure: Failure,
    line: &[u8],
) -> Result<(), Fail> {
    let mut errors = MemOut::new(Vec::with_capacity(alloc, 100)?, 7, fails);
    same(rt, &fail(&mut errors, failure), &1);
    same(rt, &errors.flush(), &Ok(()));
    same(rt, &errors.as_slice(), &line);
    Ok(())
}

/// As a text the failure is what its line says, without the program's name.
fn reads(rt: &impl Abort, alloc: Global, failure: &Failure, line: &str) -> Result<(), Fail> {
    let text = format!(in alloc; "tsnd: {failure}\n")?;
    same(rt, &text.as_str(), &line);
    Ok(())
}

/// The status stays where the line can't be written.
#[test]
fn each_failure_has_its_line(rt: HostRuntime) -> Result<(), Fail> {
    let gate_4 = Key::Gate(GateId::new(4).unwrap());
    let cases = [
        (Failure::Fault(Fault::Read), "tsnd: read failed\n"),
        (Failure::Fault(Fault::Write), "tsnd: write failed\n"),
        (Failure::Fault(Fault::Memory), "tsnd: out of memory\n"),
        (Failure::Fault(Fault::Exhausted), "tsnd: no ticket left\n"),
        (Failure::Setup, "tsnd: cannot read the setup\n"),
        (
            Failure::Refused(Refusal::TooLong),
            "tsnd: refused 1 too_long\n",
        ),
        (
            Failure::Refused(Refusal::Range(Field::Ports)),
            "tsnd: refused 4 range\n",
        ),
        (
            Failure::Refused(Refusal::Exists(gate_4)),
            "tsnd: refused 7 exists\n",
        ),
        (
            Failure::Refused(Refusal::JournalFull),
            "tsnd: refused 17 journal_full\n",
        ),
        (Failure::Refused(Refusal::Memory), "tsnd: out of memory\n"),
    ];
    for (failure, line) in cases {
        reads(&rt, rt.alloc(), &failure, line)?;
        tells(&rt, rt.alloc(), None, failure, line.as_bytes())?;
    }
    let fails = Some((0, Failing::Error));
    tells(&rt, rt.alloc(), fails, Failure::Fault(Fault::Read), b"")
}

// How many bytes are read of a setup of so many.
fn count_read(alloc: Global, count: usize) -> Result<usize, Fail> {
    let mut text = Vec::new(alloc);
    text.resize(count, b' ')?;
    let mut reader = MemIn::new(text, 100_000, None);
    match read_setup(alloc, &mut reader) {
        Ok(bytes) => Ok(bytes.len()),
        Err(_) => Err(Fail::from("the setup is not read")),
    }
}

/// A setup in pieces is read whole, or not at all where a read fails; of one that is too long, little more than the
/// longest there may be is read.
#[test]
fn a_setup_is_read_to_its_end(rt: HostRuntime) -> Result<(), Fail> {
    let text = b"ports = 3\n";
    let mut reader = MemIn::new(Vec::from_slice(rt.alloc(), text)?, 4, None);
    match read_setup(rt.alloc(), &mut reader) {
        Ok(bytes) => same(&rt, &bytes.as_slice(), &text.as_slice()),
        Err(_) => return Err(Fail::from("the setup is not read")),
    }
    let mut reader = MemIn::new(Vec::from_slice(rt.alloc(), text)?, 4, Some(1));
    same(
        &rt,
        &read_setup(rt.alloc(), &mut reader).err(),
        &Some(Failure::Setup),
    );
    same(&rt, &count_read(rt.alloc(), 1_048_576)?, &1_048_576);
    let more = count_read(rt.alloc(), 2_000_000)?;
    assert!(rt; 1_048_576 < more && more < 1_060_000);
    Ok(())
}

/// Whether this setup is named, and the journal that is kept with these syncs.
fn keeps(asked: &Asked, setup: Option<&str>, syncs: Syncs) -> bool {
    let kept = match asked {
        Asked::Script { kept, .. } | Asked::Serve { kept, .. } => kept.as_ref(),
        _ => None,
    };
    match kept {
        Some(kept) => {
            asked.file() == setup && kept.file.as_str() == "cell.journal" && kept.syncs == syncs
        }
        None => false,
    }
}

/// A journal is not the setup, and either may be named alone, to a script and to a server. Each sync is made, unless it
/// is said that none is.
#[test]
fn a_journal_may_be_kept(rt: HostRuntime) -> Result<(), Fail> {
    let both: &[&str] = &["script", "--journal", "cell.journal", "cell.toml"];
    let alone: &[&str] = &["script", "--journal=cell.journal"];
    let unsynced: &[&str] = &["script", "--sync", "none", "--journal=cell.journal"];
    let served: &[&str] = &["serve", "--sync=none", "--journal=cell.journal"];
    let cases: [(&[&str], Option<&str>, Syncs); 4] = [
        (both, Some("cell.toml"), Syncs::Each),
        (alone, None, Syncs::Each),
        (unsynced, None, Syncs::None),
        (served, None, Syncs::None),
    ];
    for (words, setup, syncs) in cases {
        let asked = read(rt.alloc(), words)?;
        assert!(rt; keeps(&asked, setup, syncs));
    }
    Ok(())
}

/// Whether this look at the journal is asked for, and no setup is named.
fn is_look(asked: Asked, wanted: Look) -> bool {
    let names_setup = asked.file().is_some();
    match &asked {
        Asked::Journal { file, look } => {
            !names_setup && file.as_str() == "cell.journal" && *look == wanted
        }
        _ => false,
    }
}

/// A look at a journal names no setup.
#[test]
fn a_journal_is_looked_at(rt: HostRuntime) -> Result<(), Fail> {
    let new = String::from_str(rt.alloc(), "new.journal")?;
    let cases: [(&'static [&'static str], Look); 8] = [
        (&["journal", "cell.journal"], Look::Whole),
        (&["journal", "cell.journal", "--setup"], Look::Setup),
        (
            &["journal", "--begin", "new.journal", "cell.journal"],
            Look::Begin(new),
        ),
        (&["journal", "cell.journal", "--since", "0"], Look::Since(0)),
        (
            &["journal", "--since=4294967295", "cell.journal"],
            Look::Since(4_294_967_295),
        ),
        (&["journal", "cell.journal", "--diff", "1"], Look::Diff(1)),
        (
            &["journal", "cell.journal", "--diff", "4294967295"],
            Look::Diff(4_294_967_295),
        ),
        (&["journal", "--mend", "cell.journal"], Look::Mend),
    ];
    for (words, wanted) in cases {
        let asked = read(rt.alloc(), words)?;
        assert!(rt; is_look(asked, wanted));
    }
    Ok(())
}

const TWO_LOOKS: &'static str =
    "error: at most one of --since, --diff, --setup, --begin and --mend may be given\n\nUsage: tsnd <COMMAND>\n\nFor more information, try '--help'.\n";

const NO_ENTRY: &'static str =
    "error: invalid value '0' for '--diff <diff>': 0 is not in 1..=4294967295\n\nFor more information, try '--help'.\n";

const LATE_ENTRY: &'static str =
    "error: invalid value '4294967296' for '--since <since>': 4294967296 is not in 0..=4294967295\n\nFor more information, try '--help'.\n";

/// Two looks at once are refused, and a number that no entry has.
#[test]
fn a_look_that_is_none_is_refused(rt: HostRuntime) -> Result<(), Fail> {
    let cases: [(&'static [&'static str], &'static str); 8] = [
        (&["--since", "1", "--diff", "1"], TWO_LOOKS),
        (&["--setup", "--mend"], TWO_LOOKS),
        (&["--begin", "new.journal", "--setup"], TWO_LOOKS),
        (&["--since", "1", "--mend"], TWO_LOOKS),
        (&["--mend", "--diff", "1"], TWO_LOOKS),
        (&["--since", "1", "--diff", "1", "--mend"], TWO_LOOKS),
        (&["--diff", "0"], NO_ENTRY),
        (&["--since", "4294967296"], LATE_ENTRY),
    ];
    for (options, reason) in cases {
        let mut words = vec![in rt.alloc(); "journal", "cell.journal"]?;
        words.extend_from_slice(options)?;
        let Asked::Refused(text) = read(rt.alloc(), words.as_slice())? else {
            return Err(Fail::from("the words are not refused"));
        };
        same(&rt, &text.as_str(), &reason);
    }
    Ok(())
}
