// Files by first mention, their makers, and the lists of an edge.
ghost use Rattle.std.specs.Prelude.{◌≡◌, ◌<◌, map, length, IfSome, IfOk, None, vec_len};
ghost use Rattle.store.specs.Try.{Gives};
ghost use Rattle.graph.specs.Data.{file_of};
ghost use Rattle.names.specs.Named.{place_from_on};
ghost use Rattle.lists.specs.Files.{mention_at, mention, claim, listed};
ghost use Rattle.lists.specs.Meaning.{files_of};

use graph::File;
use names::place_of;
use store::{Stop, Wrong};

// How many files there may be.
const FILES: usize = 256;

// The file with the path.
fn file_at(files: &[File], path: &[u8]) -> Option<usize>
    ensures is { result ≡ place_from_on (λ f. f.path) 0 (map file_of files.now) path.now }
    ensures within { IfSome result (λ i. i < length files.now) }
{
    place_of(files, path)
}

// A file more.
fn add_file(files: &mut Vec<File>, path: &[u8]) -> Result<usize, Stop>
    ensures says { Gives (λ i. record { file = i; files = files_of files.new }) result (mention_at None (files_of files.old) path.now) }
    ensures within { IfOk result (λ i. i < vec_len files.new) }
{
    let i = files.len();
    if i >= FILES {
        return Err(Stop::Because(Wrong::Limit));
    }
    let path = Vec::from_slice(*files.allocator(), path)?;
    files.push(File { path, maker: None })?;
    Ok(i)
}

// The number of the file with the path, which is a new one at its first mention.
pub(crate) fn mention(files: &mut Vec<File>, path: &[u8]) -> Result<usize, Stop>
    ensures says { Gives (λ i. record { file = i; files = files_of files.new }) result (mention (files_of files.old) path.now) }
    ensures within { IfOk result (λ i. i < vec_len files.new) }
{
    if let Some(i) = file_at(files, path) {
        return Ok(i);
    }
    add_file(files, path)
}

// The edge e makes the file i, which no edge made so far.
pub(crate) fn claim(files: &mut [File], i: usize, e: usize) -> Result<(), Stop>
    requires { i < length files.old }
    ensures { Gives (λ _. map file_of files.new) result (claim (map file_of files.old) i e) }
{
    let file = &mut files[i];
    if file.maker.is_some() {
        return Err(Stop::Because(Wrong::Made));
    }
    file.maker = Some(e);
    Ok(())
}

// A number more in a list of at most k.
pub(crate) fn listed(k: usize, ns: &mut Vec<usize>, n: usize) -> Result<(), Stop>
    ensures { Gives (λ _. ns.new.items) result (listed k ns.old.items n) }
{
    if ns.len() >= k {
        return Err(Stop::Because(Wrong::Limit));
    }
    ns.push(n)?;
    Ok(())
}
