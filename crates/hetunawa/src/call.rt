// A line of a host script becomes a call.
ghost use Rattle.std.specs.Prelude.{◌≡◌, ℕ, Bool, false, List, [], Some, None, Option, MatchOption};
ghost use Rattle.std.specs.Option.{option_map};
ghost use Rattle.script.specs.Decimals.{decimal_of, file_of};
ghost use Rattle.hetunawa.specs.Grammar.{Meant, write, meaning, and_then, only, bare_call, marked_call, short_call_of};
ghost use Rattle.hetunawa.specs.declared.call.Unread.TheVariants.{Memory};
ghost use Rattle.hetunawa.specs.Starts.{Reads, listed, lists_more, start_words, start_of, started_as, call_of};
ghost use Rattle.script.specs.Texts.{words_of};

use crate::verb::{Verb, verb_in};
use script::{Words, cut_at_colon, decimal, file_number, mark};
use std::alloc::{AllocError, AllocFailed, Global};

// A call on a host, as a script gives it; the numbers may be of any size.
#[derive(Drop)]
pub enum Call {
    Write(usize, u32),
    Remove(usize),
    Tell(usize),
    Clock,
    Start(Start),
    Poll,
    BreakOff(usize),
}

// A command to start, with the files that it reads and makes.
#[derive(Drop)]
pub struct Start {
    pub edge: usize,
    pub question: Vec<u8>,
    pub reads: Vec<usize>,
    pub outputs: Vec<usize>,
}

// Why a line becomes no call. What allocates fails in two ways, and `?` takes each by a `From` of its own.
#[derive(Clone, Copy)]
pub enum Unread {
    NotUnderstood,
    Memory,
}

impl From<AllocError> for Unread {
    ghost from_gives = { λ _ r. r ≡ Memory };

    fn from(_e: AllocError) -> Unread {
        Unread::Memory
    }
}

impl<T: Drop> From<AllocFailed<T>> for Unread {
    ghost from_gives = { λ _ r. r ≡ Memory };

    fn from(_e: AllocFailed<T>) -> Unread {
        Unread::Memory
    }
}

// The call of a line.
pub fn call_of(heap: Global, line: &[u8]) -> Result<Call, Unread>
    ensures { Reads meaning (call_of line.now) result }
{
    let mut words = Words::new(line);
    let verb = words.next().and_then(verb_in).ok_or(Unread::NotUnderstood)?;
    match verb {
        Verb::Start => Ok(Call::Start(start_of(heap, line)?)),
        verb => short_call(verb, words).ok_or(Unread::NotUnderstood),
    }
}

// The call of a verb and the words behind it, if it is no start.
fn short_call(verb: Verb, words: Words<'_>) -> Option<Call>
    ensures { option_map meaning result ≡ short_call_of verb (words_of words.entry.rest.now) }
{
    match verb {
        Verb::Write => write_call(words),
        Verb::Remove => only_file(words).map(Call::Remove),
        Verb::Tell => only_file(words).map(Call::Tell),
        Verb::Clock => bare_call(Call::Clock, words),
        Verb::Start => None,
        Verb::Poll => bare_call(Call::Poll, words),
        Verb::BreakOff => only_edge(words).map(Call::BreakOff),
    }
}

// A write's file and mark.
fn write_call(mut words: Words<'_>) -> Option<Call>
    ensures { option_map meaning result ≡ marked_call write (words_of words.entry.rest.now) }
{
    let file = file_number(words.next()?)?;
    let mark = mark(only_word(words)?)?;
    Some(Call::Write(file, mark))
}

// A call that wants no more words.
fn bare_call(call: Call, mut words: Words<'_>) -> Option<Call>
    ensures { option_map meaning result ≡ bare_call (meaning call) (words_of words.entry.rest.now) }
{
    words.next().is_none().then_some(call)
}

fn only_file(words: Words<'_>) -> Option<usize>
    ensures { result ≡ and_then (only (words_of words.entry.rest.now)) file_of }
{
    file_number(only_word(words)?)
}

fn only_edge(words: Words<'_>) -> Option<usize>
    ensures { result ≡ and_then (only (words_of words.entry.rest.now)) decimal_of }
{
    decimal(only_word(words)?)
}

// The word that is left, if it is one.
fn only_word(mut words: Words<'_>) -> Option<&[u8]>
    ensures { option_map (λ w. w.now) result ≡ only (words_of words.entry.rest.now) }
{
    let word = words.next()?;
    words.next().is_none().then_some(word)
}

// A start: its words stand before the line's first colon with a space behind it, its question behind that.
fn start_of(heap: Global, line: &[u8]) -> Result<Start, Unread>
    ensures { Reads started_as (start_of line.now) result }
{
    let (head, text) = cut_at_colon(line).ok_or(Unread::NotUnderstood)?;
    let mut words = Words::new(head);
    let edge = started_edge(&mut words).ok_or(Unread::NotUnderstood)?;
    let Lists { reads, outputs } = lists_of(heap, words)?;
    let question = Vec::from_slice(heap, text)?;
    Ok(Start {
        edge,
        question,
        reads,
        outputs,
    })
}

// The edge of a start, whose words go on behind `reads`.
fn started_edge(words: &mut Words<'_>) -> Option<usize>
    ensures { MatchOption result (start_words (words_of words.old.rest.now) ≡ None) (λ e. start_words (words_of words.old.rest.now) ≡ Some (e, words_of words.new.rest.now)) }
{
    let _ = words.next()?;
    let edge = decimal(words.next()?)?;
    (words.next()? == b"reads".as_slice()).then_some(edge)
}

// The files that a start reads and makes.
#[derive(Drop)]
struct Lists {
    reads: Vec<usize>,
    outputs: Vec<usize>,
}

// The files to read up to the word `outputs`, and those to make behind it. The labels name the loops in their proofs.
fn lists_of(heap: Global, mut words: Words<'_>) -> Result<Lists, Unread>
    ensures { Reads listed (lists_more false [] [] (words_of words.entry.rest.now)) result }
{
    let mut reads = Vec::new(heap);
    'reads: loop {
        let word = words.next().ok_or(Unread::NotUnderstood)?;
        if word == b"outputs".as_slice() {
            break;
        }
        reads.push(decimal(word).ok_or(Unread::NotUnderstood)?)?;
    }
    let mut outputs = Vec::new(heap);
    'outputs: for word in words {
        outputs.push(decimal(word).ok_or(Unread::NotUnderstood)?)?;
    }
    Ok(Lists { reads, outputs })
}
