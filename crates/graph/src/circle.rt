// The order of the edges: a rank for each one above those of the edges that it needs, or the lowest edge on a circle.
// Files and edges go apart: there is no graph yet that would hold both.
ghost use Rattle.std.specs.Prelude.{◌≡◌, ℕ, ◌<◌, ◌||◌, map, length, IfOk, vec_items, vec_len, OnOk};
ghost use Rattle.std.specs.List.{position, enumerate_from};
ghost use Rattle.graph.specs.declared.circle.Unranked.TheVariants.{Memory};
ghost use Rattle.graph.specs.Data.{file_of, edge_of, maker_at};
ghost use Rattle.graph.specs.Circle.{is_maker, inputs_of, makes_one, needs, reaches, least, Says, Tells};
ghost use Rattle.graph.specs.Rows.{bit, row_at, set_bits, Row, Square, Table, Passed, passed};

use crate::kinds::{Edge, File};
use std::alloc::{AllocError, Global};

// Why the edges of a graph have no order.
#[derive(Clone, Copy, Debug, PartialEq, Eq)]
pub enum Unranked {
    // the lowest edge that reaches itself
    Circle(usize),
    // there is no memory for the answer
    Memory,
}

impl From<AllocError> for Unranked {
    ghost from_gives = { λ _ r. r ≡ Memory };

    fn from(_e: AllocError) -> Unranked {
        Unranked::Memory
    }
}

// The edge that makes a file.
fn maker_of(files: &[File], f: usize) -> Option<usize>
    ensures { result ≡ maker_at (map file_of files.now) f }
{
    files.get(f).and_then(|file| file.maker)
}

// Sets the bit of the maker, if it has one.
fn set_bit(row: &mut [bool], maker: Option<usize>)
    ensures { (d : ℕ) → d < length row.old → bit row.new d ≡ (bit row.old d || is_maker d maker) }
{
    // No `get_mut`: a proof does not know what is written through it.
    if let Some(d) = maker
        && d < row.len()
    {
        row[d] = true;
    }
}

// Sets the bit of each edge that makes one of the files.
fn mark(files: &[File], inputs: &[usize], row: &mut [bool])
    ensures { (d : ℕ) → d < length row.old → bit row.new d ≡ (bit row.old d || makes_one (map file_of files.now) d inputs.now) }
{
    for f in inputs {
        set_bit(row, maker_of(files, *f));
    }
}

// Sets the bit of each edge that makes an input of the edge.
#[tactic(auto, using(crate::proofs::Marks::marks_append))]
fn mark_inputs(files: &[File], edge: &Edge, row: &mut [bool])
    ensures { (d : ℕ) → d < length row.old → bit row.new d ≡ (bit row.old d || makes_one (map file_of files.now) d (inputs_of (edge_of edge.now))) }
{
    mark(files, &edge.reads, row);
    mark(files, &edge.order_only, row);
}

// The edges, of n, that make an input of the edge.
fn makers_row(heap: Global, files: &[File], edge: &Edge, n: usize) -> Result<Vec<bool>, AllocError>
    ensures { IfOk result (λ v. Row n (λ d. makes_one (map file_of files.now) d (inputs_of (edge_of edge.now))) v.items) }
{
    let mut row = vec![in heap; false; n]?;
    mark_inputs(files, edge, &mut row);
    Ok(row)
}

// The edges that each edge needs.
fn first_rows(heap: Global, files: &[File], edges: &[Edge]) -> Result<Vec<Vec<bool>>, AllocError>
    ensures { IfOk result (λ v. Table (length edges.now) (needs (map file_of files.now) (map edge_of edges.now)) (map vec_items v.items)) }
{
    let mut rows = Vec::new(heap);
    for edge in edges {
        rows.push(makers_row(heap, files, edge, edges.len())?)?;
    }
    Ok(rows)
}

// Sets each bit that is set in the other row.
fn join(row: &mut [bool], other: &[bool])
    requires { length row.old ≡ length other.now }
    ensures { (d : ℕ) → d < length row.old → bit row.new d ≡ (bit row.old d || bit other.now d) }
{
    // By number, and no `zip`: a proof does not know what is written through an `iter_mut` inside a `zip`.
    for (j, b) in row.iter_mut().enumerate() {
        *b |= other[j];
    }
}

// Lets the walks of a row pass the edge k, whose row is given.
fn pass_row(row: &mut [bool], k: usize, other: &[bool])
    requires { (length row.old ≡ length other.now) × (k < length other.now) }
    ensures { Row (length other.now) (passed k other.now row.old) row.new }
{
    if row[k] {
        join(row, other);
    }
}

// Lets the walks of all rows pass the edge k.
fn pass(rows: &mut [Vec<bool>], k: usize) -> Result<(), AllocError>
    requires { (Square (length rows.old) (map vec_items rows.old)) × (k < length rows.old) }
    ensures { OnOk result (Passed (length rows.old) k (row_at (map vec_items rows.old) k) (map vec_items rows.old) (map vec_items rows.new)) }
{
    let other = rows[k].clone()?;
    for row in rows.iter_mut() {
        pass_row(row, k, &other);
    }
    Ok(())
}

// The edges that each edge reaches.
fn closed_rows(heap: Global, files: &[File], edges: &[Edge]) -> Result<Vec<Vec<bool>>, AllocError>
    ensures { IfOk result (λ v. Table (length (map edge_of edges.now)) (reaches (map file_of files.now) (map edge_of edges.now)) (map vec_items v.items)) }
{
    let mut rows = first_rows(heap, files, edges)?;
    // By number, and no walk over the rows: each pass reads one row and writes to all.
    for k in 0..edges.len() {
        pass(&mut rows, k)?;
    }
    Ok(rows)
}

// The lowest edge that reaches itself.
fn lowest(rows: &[Vec<bool>]) -> Option<usize>
    ensures { result ≡ position (λ p. bit p.1.items p.0) (enumerate_from 0 rows.now) }
{
    rows.iter()
        .enumerate()
        .position(|(i, row)| row.get(i) == Some(&true))
}

// How many bits are set. A loop, and no `filter` with `count`: ordering edges with few inputs takes a third longer with these.
fn count(row: &[bool]) -> usize
    ensures { result ≡ set_bits row.now }
{
    let mut n = 0;
    for b in row {
        if *b {
            n += 1;
        }
    }
    n
}

// How many edges each edge reaches.
fn ranks(heap: Global, rows: &[Vec<bool>]) -> Result<Vec<usize>, AllocError>
    ensures { IfOk result (λ v. v.items ≡ map (λ row. set_bits row.items) rows.now) }
{
    rows.iter().map(|row| count(row)).collect(heap)
}

// The answer that the table of what reaches what gives. The files and edges are there for the contract. It stands beside `order`
// because the proof does not close there by itself: what stays open is that the edge found is the lowest on a circle.
fn answer(
    heap: Global,
    files: &[File],
    edges: &[Edge],
    rows: &[Vec<bool>],
) -> Result<Vec<usize>, Unranked>
    requires { Table (length (map edge_of edges.now)) (reaches (map file_of files.now) (map edge_of edges.now)) (map vec_items rows.now) }
    ensures says { Says (map file_of files.now) (map edge_of edges.now) result }
    ensures law { Tells (map file_of files.now) (map edge_of edges.now) result }
{
    if let Some(c) = lowest(rows) {
        return Err(Unranked::Circle(c));
    }
    Ok(ranks(heap, rows)?)
}

// How many edges each edge reaches, or the lowest edge on a circle. Order-only inputs count, validations do not.
pub fn order(heap: Global, files: &[File], edges: &[Edge]) -> Result<Vec<usize>, Unranked>
    ensures says { Says (map file_of files.now) (map edge_of edges.now) result }
    ensures law { Tells (map file_of files.now) (map edge_of edges.now) result }
{
    let rows = closed_rows(heap, files, edges)?;
    answer(heap, files, edges, &rows)
}
