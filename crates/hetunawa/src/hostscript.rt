// A script of host calls is done line by line, and each call's answer is printed.
ghost use Rattle.std.specs.Prelude.{◌≡◌, Bool, MatchResult};
ghost use Rattle.hetunawa.specs.Performs.{Answers};
ghost use Rattle.hetunawa.specs.Starts.{call_of};
ghost use Rattle.script.specs.Texts.{comment, passed_over};

use crate::answer::{Answer, Listed};
use crate::call::{Unread, call_of};
use crate::perform::perform;
use host::Host;
use script::{Lines, Words};
use std::alloc::{AllocError, Global};
use std::fmt::Display;
use std::io::Write;
use std::{fmt, io};

// How many file numbers a host has.
const FILES: usize = 256;

// Why a script breaks off. By hand, and not by `thiserror`: want of memory is told in words of its own and holds no error.
#[derive(Drop)]
pub enum Fault {
    Memory,
    Output(io::Error),
}

impl Display for Fault {
    fn fmt<W: fmt::Write>(&self, f: &mut fmt::Formatter<W>) -> fmt::Result {
        match self {
            Fault::Memory => write!(f, "not enough memory"),
            Fault::Output(error) => write!(f, "its answers cannot be written: {error}"),
        }
    }
}

impl From<io::Error> for Fault {
    fn from(error: io::Error) -> Fault {
        Fault::Output(error)
    }
}

impl From<AllocError> for Fault {
    fn from(_e: AllocError) -> Fault {
        Fault::Memory
    }
}

// Does each line of the script, and lists the files in the end.
pub fn run<B: Host, W: Write>(
    heap: Global,
    host: &mut B,
    script: &[u8],
    out: &mut W,
) -> Result<(), Fault> {
    for line in Lines::new(script) {
        if !is_passed_over(line) {
            let answer = answer_to(heap, host, line)?;
            writeln!(out, "{answer}")?;
        }
    }
    list_files(host, out)?;
    out.flush()?;
    Ok(())
}

// Whether a line is a comment or blank.
fn is_passed_over(line: &[u8]) -> bool
    ensures { result ≡ passed_over line.now }
{
    is_comment(line) || Words::new(line).next().is_none()
}

fn is_comment(line: &[u8]) -> bool
    ensures { result ≡ comment line.now }
{
    line.starts_with(b"# ")
}

// What a line answers. For want of memory it does nothing. A line that is not understood has its answer, and want of memory has none, so
// that no `?` parts the two.
fn answer_to<B: Host>(heap: Global, host: &mut B, line: &[u8]) -> Result<Answer, AllocError>
    ensures { MatchResult result (λ a. Answers B.Host.CAPACITY B.Host.makes (call_of line.now) (B.Host.state host.old) a (B.Host.state host.new)) (λ _. B.Host.state host.new ≡ B.Host.state host.old) }
{
    match call_of(heap, line) {
        Ok(call) => Ok(perform(host, &call)),
        Err(Unread::NotUnderstood) => Ok(Answer::NotUnderstood),
        Err(Unread::Memory) => Err(AllocError),
    }
}

// Lists the files that are present, by number.
fn list_files<B: Host, W: Write>(host: &B, out: &mut W) -> io::Result<()> {
    for file in 0..FILES {
        if let Ok(Some(is)) = host.tell(file) {
            writeln!(out, "{}", Listed { file, is })?;
        }
    }
    Ok(())
}
