//! The cells of a bucket are chained by their numbers, and the numbers of a chain ascend. So a link says only
//! which taken cell of its bucket comes next, a walk ends, and a cell's place in its chain is found by its number.

ghost use Rattle.std.specs.Prelude.{◌≡◌, ◌<◌, length, Some, None, MatchOption, ℕ, slice_index_or, slice_set};
ghost use Rattle.cells.specs.Chains.{held, valued, revalued, without, Kept, Holds, Lacks, Between, Hooked};

use crate::cell::{Cell, Entry};
use crate::link::CellLink;
use keys::key::Key;

// Functions over lent cells: they run between two sound states of a table, so what they keep is less than its invariant.
// A type of chained cells was tried: once a table of them is let go, its caller no longer knows what stands in the cells.

/// The cell that holds a key the same as this one.
pub(crate) fn seek<K: Key + Copy>(cells: &[Cell<K>], key: &K) -> Option<usize>
    requires { Kept K.hashed cells.now }
    ensures { MatchOption result
        (Lacks K.eq cells.now key.now)
        (λ i. Holds K.eq cells.now key.now i) }
{
    if cells.is_empty() {
        return None;
    }
    // By an expression, as in `put` and `give_up`: a function would take and promise the same two numbers.
    let bucket = key.hash() as usize % cells.len();
    // A loop over links, and no iterator, which would hide its measure, the place in the slice.
    let mut link = cells[bucket].head;
    while let Some(at) = link.get() {
        let cell = cells[at];
        if cell.entry.is_some_and(|entry| entry.key == *key) {
            return Some(at);
        }
        link = cell.next;
    }
    None
}

/// The value in the cell `at`.
pub(crate) fn value_at<K: Copy>(cells: &[Cell<K>], at: usize) -> Option<u32>
    requires { at < length cells.now }
    ensures { result ≡ valued (slice_index_or (held cells.now) at None) }
{
    cells[at].entry.map(|entry| entry.value)
}

/// A place in a chain: after the cell `before`, or first in it, and before the cell `after`, or last.
#[derive(Clone, Copy)]
struct Gap {
    before: Option<usize>,
    after: CellLink,
}

/// Where the cell `f` has, or would have, its place in the chain of a bucket.
fn find_gap<K: Key + Copy>(cells: &[Cell<K>], bucket: usize, f: usize) -> Gap
    requires kept { Kept K.hashed cells.now }
    requires inside { f < length cells.now }
    requires bucket { bucket < length cells.now }
    ensures { Between K.hashed cells.now bucket f result.before result.after }
{
    // A loop over links, and no iterator, which would hide its measure, the place in the slice.
    let mut before = None;
    let mut after = cells[bucket].head;
    while let Some(at) = after.get()
        && at < f
    {
        before = Some(at);
        after = cells[at].next;
    }
    Gap { before, after }
}

/// Lets the link at a place in a bucket's chain go to the cell `x`, or end the chain.
fn hook<K: Copy>(cells: &mut [Cell<K>], bucket: usize, before: Option<usize>, x: CellLink)
    requires bucket { bucket < length cells.old }
    requires inside { (i : ℕ) → before ≡ Some i → i < length cells.old }
    ensures { Hooked cells.old cells.new bucket before x }
{
    match before {
        Some(at) => cells[at].next = x,
        None => cells[bucket].head = x,
    }
}

/// Puts an entry into the free cell `f`, and the cell into its chain.
pub(crate) fn put<K: Key + Copy>(cells: &mut [Cell<K>], f: usize, entry: Entry<K>)
    requires kept { Kept K.hashed cells.old }
    requires inside { f < length cells.old }
    requires free { slice_index_or (held cells.old) f None ≡ None }
    ensures kept { Kept K.hashed cells.new }
    ensures held { held cells.new ≡ slice_set (held cells.old) f (Some entry) }
{
    let bucket = entry.key.hash() as usize % cells.len();
    let Gap { before, after } = find_gap(cells, bucket, f);
    let cell = &mut cells[f];
    cell.entry = Some(entry);
    cell.next = after;
    hook(cells, bucket, before, CellLink::to(f));
}

/// Takes the cell `f` out of its chain, and the entry out of the cell.
fn give_up<K: Key + Copy>(cells: &mut [Cell<K>], f: usize) -> Option<Entry<K>>
    requires kept { Kept K.hashed cells.old }
    requires inside { f < length cells.old }
    ensures kept { Kept K.hashed cells.new }
    ensures held { held cells.new ≡ slice_set (held cells.old) f None }
    ensures given { result ≡ slice_index_or (held cells.old) f None }
{
    let entry = cells[f].entry?;
    let bucket = entry.key.hash() as usize % cells.len();
    let Gap { before, .. } = find_gap(cells, bucket, f);
    let cell = &mut cells[f];
    cell.entry = None;
    let next = cell.next;
    hook(cells, bucket, before, next);
    Some(entry)
}

/// Takes the entry of the cell `hole` out, and moves that of the cell `last` there, so that the entries stay in the
/// first cells. Where `hole` is the last cell itself, none is moved.
pub(crate) fn take_out<K: Key + Copy>(
    cells: &mut [Cell<K>],
    hole: usize,
    last: usize,
) -> Option<Entry<K>>
    requires kept { Kept K.hashed cells.old }
    requires hole { hole < length cells.old }
    requires last { last < length cells.old }
    ensures kept { Kept K.hashed cells.new }
    ensures held { held cells.new ≡ without (held cells.old) hole last }
    ensures given { result ≡ slice_index_or (held cells.old) hole None }
{
    let gone = give_up(cells, hole);
    if let Some(entry) = give_up(cells, last) {
        put(cells, hole, entry);
    }
    gone
}

/// Puts another value under the key of the cell `at`.
pub(crate) fn replace<K: Key + Copy>(cells: &mut [Cell<K>], at: usize, value: u32)
    requires kept { Kept K.hashed cells.old }
    requires inside { at < length cells.old }
    ensures kept { Kept K.hashed cells.new }
    ensures held { held cells.new ≡ slice_set (held cells.old) at (revalued (slice_index_or (held cells.old) at None) value) }
{
    if let Some(entry) = &mut cells[at].entry {
        entry.value = value;
    }
}
