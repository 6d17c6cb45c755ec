// The program hetunawa: its first word says what to do.
#![tactic(auto)]

mod answer;
mod call;
mod help;
mod hostscript;
mod perform;
mod verb;

use host::Host;
use hostscript::Fault;
use parts::Refusal;
use replay::Replay;
use simulator::Simulator;
use std::fmt::Display;
use std::io::{BufWriter, Write};
use std::process::ExitCode;
use std::{env, fs, io};
use text::Statement;

// The number by which a malformed recording is known.
const MALFORMED: u32 = 13;

// Why the program fails has been told when this is returned.
struct Failed;

fn main(rt: HostRuntime) -> ExitCode {
    match obey(&rt) {
        Ok(()) => ExitCode::SUCCESS,
        Err(Failed) => ExitCode::FAILURE,
    }
}

// Does what the words of the call say.
fn obey(rt: &HostRuntime) -> Result<(), Failed> {
    let words = words_given(rt).map_err(|error| complain(rt, "the words of the call", error))?;
    let Some((word, others)) = words.split_first() else {
        return explain(rt);
    };
    match (word.as_str(), others) {
        ("--help", []) => explain(rt),
        ("host", [script]) => over_simulator(rt, script),
        ("host", [script, recording]) => over_replay(rt, script, recording),
        ("outline", [manifest]) => show_outline(rt, manifest),
        (word, _) => Err(misused(rt, word)),
    }
}

// The words behind the program's own name.
fn words_given(rt: &HostRuntime) -> io::Result<Vec<String>> {
    Ok(env::args(rt)?.skip(1).collect(rt.alloc())?)
}

fn explain(rt: &HostRuntime) -> Result<(), Failed> {
    rt.print(help::TEXT)
        .map_err(|error| complain(rt, "standard output", error))
}

// Tells why words were not understood.
fn misused(rt: &HostRuntime, word: &str) -> Failed {
    let _ = match word {
        "host" => eprintln!(rt;
            "hetunawa: `host` takes a SCRIPT and, if wanted, a RECORDING, and no other count of words"
        ),
        "outline" => eprintln!(rt;
            "hetunawa: `outline` takes a MANIFEST, and no other count of words"
        ),
        "--help" => eprintln!(rt; "hetunawa: `--help` takes no further words"),
        _ => eprintln!(rt;
            "hetunawa: there is no word `{word}`; `hetunawa --help` tells which there are"
        ),
    };
    Failed
}

// Tells what went wrong with what.
fn complain<D: Display + Drop>(rt: &HostRuntime, what: &str, why: D) -> Failed {
    let _ = eprintln!(rt; "hetunawa: {what}: {why}");
    Failed
}

// Tells on standard output what was refused.
fn refuse<D: Display + Drop>(rt: &HostRuntime, what: D) -> Failed {
    let _ = println!(rt; "refused {what}");
    Failed
}

// Does a script of host calls on a fresh simulator.
fn over_simulator(rt: &HostRuntime, script: &str) -> Result<(), Failed> {
    let calls = read(rt, script)?;
    let mut simulator = Simulator::new(rt.alloc()).map_err(|_| complain(
        rt,
        script,
        Fault::Memory,
    ))?;
    play(rt, &mut simulator, script, &calls)
}

// Does a script of host calls on a replay of a recording.
fn over_replay(rt: &HostRuntime, script: &str, recording: &str) -> Result<(), Failed> {
    let calls = read(rt, script)?;
    let endings = read(rt, recording)?;
    let mut replay = Replay::new(rt.alloc(), &endings).map_err(|fault| match fault {
        replay::Fault::Memory => complain(rt, recording, Fault::Memory),
        replay::Fault::Malformed => refuse(rt, MALFORMED),
    })?;
    play(rt, &mut replay, script, &calls)
}

// Prints a line for each statement of a manifest, or its first fault.
fn show_outline(rt: &HostRuntime, path: &str) -> Result<(), Failed> {
    let bytes = read(rt, path)?;
    let statements = text::manifest(rt.alloc(), &bytes).map_err(|refusal| match refusal {
        Refusal::Faulty(fault) => refuse(
            rt,
            format_args!("{} at {}", fault.number(), fault.place().byte),
        ),
        Refusal::Memory => complain(rt, path, Fault::Memory),
    })?;
    print_lines(rt, &statements).map_err(|error| complain(rt, path, error))
}

fn print_lines(rt: &HostRuntime, statements: &[Statement<'_>]) -> io::Result<()> {
    let mut out = BufWriter::new(rt.alloc(), rt.stdout())?;
    for statement in statements {
        let line = outline::line(rt.alloc(), statement)?;
        out.write_all(&line)?;
    }
    out.flush()
}

fn read(rt: &HostRuntime, path: &str) -> Result<Vec<u8>, Failed> {
    fs::read(rt, path).map_err(|error| complain(rt, path, error))
}

// Does the calls of a script on a host, and prints the answers.
fn play<B: Host>(rt: &HostRuntime, host: &mut B, script: &str, calls: &[u8]) -> Result<(), Failed> {
    let mut out = BufWriter::new(rt.alloc(), rt.stdout()).map_err(|_| complain(
        rt,
        script,
        Fault::Memory,
    ))?;
    hostscript::run(rt.alloc(), host, calls, &mut out).map_err(|fault| complain(rt, script, fault))
}
