// The paths of an edge's files, joined: for `in` and `out`, and in its question.
ghost use Rattle.std.specs.Prelude.{◌++◌, map, take};
ghost use Rattle.std.specs.List.{flat_map};
ghost use Rattle.graph.specs.Data.{file_of, edge_of, path_at};
ghost use Rattle.reader.specs.Values.{spaced, paths_at, in_text, out_text};
ghost use Rattle.reader.specs.Told.{Puts, Makes, Asks};

use graph::{Edge, File};
use std::alloc::{AllocError, Global};

// Puts the path of a file; there is none for a number that no file has.
fn put_path(out: &mut Vec<u8>, files: &[File], f: usize) -> Result<(), AllocError>
    ensures { Puts result out.old out.new (path_at (map file_of files.now) f) }
{
    if let Some(file) = files.get(f) {
        out.extend_from_slice(&file.path)?;
    }
    Ok(())
}

// Puts the paths of files, each between two texts.
fn put_each(
    out: &mut Vec<u8>,
    files: &[File],
    ns: &[usize],
    before: &[u8],
    after: &[u8],
) -> Result<(), AllocError>
    ensures { Puts result out.old out.new (flat_map (λ p. before.now ++ (p ++ after.now)) (paths_at (map file_of files.now) ns.now)) }
{
    for n in ns {
        out.extend_from_slice(before)?;
        put_path(out, files, *n)?;
        out.extend_from_slice(after)?;
    }
    Ok(())
}

// Puts the paths of files with a space between each two.
fn put_spaced(out: &mut Vec<u8>, files: &[File], ns: &[usize]) -> Result<(), AllocError>
    ensures { Puts result out.old out.new (spaced (paths_at (map file_of files.now) ns.now)) }
{
    match ns {
        [] => Ok(()),
        [first, rest @ ..] => {
            put_path(out, files, *first)?;
            put_each(out, files, rest, b" ", b"")
        }
    }
}

// The first n of some files, with a space between each two.
fn joined(heap: Global, files: &[File], ns: &[usize], n: usize) -> Result<Vec<u8>, AllocError>
    ensures { Makes result (spaced (paths_at (map file_of files.now) (take n ns.now))) }
{
    let mut out = Vec::new(heap);
    put_spaced(&mut out, files, &ns[..n.min(ns.len())])?;
    Ok(out)
}

// What `in` stands for at an edge.
pub(crate) fn in_text(heap: Global, files: &[File], e: &Edge) -> Result<Vec<u8>, AllocError>
    ensures { Makes result (in_text (map file_of files.now) (edge_of e.now)) }
{
    joined(heap, files, &e.reads, e.explicit_reads)
}

// What `out` stands for at an edge.
pub(crate) fn out_text(heap: Global, files: &[File], e: &Edge) -> Result<Vec<u8>, AllocError>
    ensures { Makes result (out_text (map file_of files.now) (edge_of e.now)) }
{
    joined(heap, files, &e.outputs, e.explicit_outputs)
}

// Makes the question of a command that reads and makes files.
pub(crate) fn put_question(
    out: &mut Vec<u8>,
    files: &[File],
    reads: &[usize],
    outputs: &[usize],
) -> Result<(), AllocError>
    ensures { Asks result out.old out.new (paths_at (map file_of files.now) reads.now) (paths_at (map file_of files.now) outputs.now) }
{
    out.push(0)?;
    put_each(out, files, reads, b"", b"\0")?;
    out.push(0)?;
    put_each(out, files, outputs, b"", b"\0")
}
