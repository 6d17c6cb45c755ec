// A manifest's outline, for people: a line for each statement, with its place, its kind and its names, or the refusal.
// It is bytes and no Display: a manifest's bytes need not be text.
#![tactic(auto)]

ghost use Rattle.std.specs.Prelude.{◌≡◌, map, codes, decimal, IfOk};
ghost use Rattle.parts.specs.Parts.{entry_of};
ghost use Rattle.text.specs.Text.{head_of, work_of, said_of, stated_of, manifest_of};
ghost use Rattle.outline.specs.Outline.{shown_byte, shown, words, marked, names, head_shown, work_shown, said_shown, line_of, fault_line, lines_shown, outline_of, Puts, Shows};

use cursor::Fault;
use parts::{Binding, Refusal};
use std::alloc::{AllocError, Global};
use text::{Body, Declared, Edge, Statement};

// Puts bytes as they are. Its contract is one equation, where that of `extend_from_slice` speaks of clones.
fn put(out: &mut Vec<u8>, part: &[u8]) -> Result<(), AllocError>
    ensures { Puts result out.old out.new part.now }
{
    out.extend_from_slice(part)
}

// What a byte of a part is shown as.
fn shown_byte(b: u8) -> u8
    ensures { result ≡ shown_byte b }
{
    if b == b'\n' { b' ' } else { b }
}

// Puts a part of the manifest, on one line.
fn put_part(out: &mut Vec<u8>, part: &[u8]) -> Result<(), AllocError>
    ensures { Puts result out.old out.new (shown part.now) }
{
    for b in part {
        out.push(shown_byte(*b))?;
    }
    Ok(())
}

fn put_number(out: &mut Vec<u8>, n: usize) -> Result<(), AllocError>
    ensures { Puts result out.old out.new (decimal n) }
{
    let digits = format!(in *out.allocator(); "{n}")?;
    put(out, digits.as_bytes())
}

// Puts parts, each after a space.
fn put_words(out: &mut Vec<u8>, parts: &[&[u8]]) -> Result<(), AllocError>
    ensures { Puts result out.old out.new (words (map (λ x. x.now) parts.now)) }
{
    for part in parts {
        put(out, b" ")?;
        put_part(out, part)?;
    }
    Ok(())
}

// Puts parts after their mark, if there are any.
fn put_marked(out: &mut Vec<u8>, mark: &[u8], parts: &[&[u8]]) -> Result<(), AllocError>
    ensures { Puts result out.old out.new (marked mark.now (map (λ x. x.now) parts.now)) }
{
    if parts.is_empty() {
        return Ok(());
    }
    put(out, mark)?;
    put_words(out, parts)
}

// The names that a block sets.
fn names<'a>(heap: Global, lines: &[Binding<'a>]) -> Result<Vec<&'a [u8]>, AllocError>
    ensures { IfOk result (λ v. v.items ≡ map (λ b. b.name) lines.now) }
{
    lines.iter().map(|b| b.name).collect(heap)
}

// Puts the names that a block sets.
fn put_block(out: &mut Vec<u8>, lines: &[Binding]) -> Result<(), AllocError>
    ensures { Puts result out.old out.new (marked (codes " with") (names (map entry_of lines.now))) }
{
    let names = names(*out.allocator(), lines)?;
    put_marked(out, b" with", &names)
}

fn put_head(out: &mut Vec<u8>, kind: &[u8], d: &Declared) -> Result<(), AllocError>
    ensures { Puts result out.old out.new (head_shown kind.now (head_of d.now)) }
{
    put(out, kind)?;
    put_part(out, d.name)?;
    put_block(out, &d.lines)
}

fn put_edge(out: &mut Vec<u8>, e: &Edge) -> Result<(), AllocError>
    ensures { Puts result out.old out.new (work_shown (work_of e.now)) }
{
    put(out, b"build")?;
    put_words(out, &e.outputs.explicit)?;
    put_marked(out, b" |", &e.outputs.implicit)?;
    put(out, b": ")?;
    put_part(out, e.rule)?;
    put_words(out, &e.inputs.explicit)?;
    put_marked(out, b" |", &e.inputs.implicit)?;
    put_marked(out, b" ||", &e.inputs.order_only)?;
    put_marked(out, b" |@", &e.inputs.validations)?;
    put_block(out, &e.lines)
}

fn put_body(out: &mut Vec<u8>, body: &Body) -> Result<(), AllocError>
    ensures { Puts result out.old out.new (said_shown (said_of body.now)) }
{
    match body {
        Body::Variable(b) => {
            put(out, b"variable ")?;
            put_part(out, b.name)
        }
        Body::Rule(d) => put_head(out, b"rule ", d),
        Body::Pool(d) => put_head(out, b"pool ", d),
        Body::Build(e) => put_edge(out, e),
    }
}

fn put_line(out: &mut Vec<u8>, x: &Statement) -> Result<(), AllocError>
    ensures { Puts result out.old out.new (line_of (stated_of x.now)) }
{
    put_number(out, x.place.byte)?;
    put(out, b" ")?;
    put_body(out, &x.body)?;
    put(out, b"\n")
}

fn put_lines(out: &mut Vec<u8>, all: &[Statement]) -> Result<(), AllocError>
    ensures { Puts result out.old out.new (lines_shown (map stated_of all.now)) }
{
    for x in all {
        put_line(out, x)?;
    }
    Ok(())
}

// The line of a statement.
pub fn line(heap: Global, x: &Statement) -> Result<Vec<u8>, AllocError>
    ensures { Shows result (line_of (stated_of x.now)) }
{
    let mut out = Vec::new(heap);
    put_line(&mut out, x)?;
    Ok(out)
}

// The line of a fault: its number and its place.
pub fn fault_line(heap: Global, f: Fault) -> Result<Vec<u8>, AllocError>
    ensures { Shows result (fault_line f) }
{
    Ok(format!(in heap; "refused {} at {}\n", f.number(), f.place().byte)?.into_bytes())
}

// The outline of a text: all its lines, or the line of its fault.
pub fn outline(heap: Global, manifest: &[u8]) -> Result<Vec<u8>, AllocError>
    ensures { Shows result (outline_of (manifest_of manifest.now)) }
{
    match text::manifest(heap, manifest) {
        Ok(all) => {
            let mut out = Vec::new(heap);
            put_lines(&mut out, &all)?;
            Ok(out)
        }
        Err(Refusal::Faulty(f)) => fault_line(heap, f),
        Err(Refusal::Memory) => Err(AllocError {}),
    }
}
