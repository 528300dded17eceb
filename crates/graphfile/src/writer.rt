// The graph file, written field by field from the front, each list from its place in the graph.
ghost use Rattle.std.specs.Prelude.{◌≡◌, ◌≤◌, length};
ghost use Rattle.base.specs.Tests.{all};
ghost use Rattle.graph.specs.Limits.{max_learners, max_masks};
ghost use Rattle.graphfile.specs.Writer.{list_bytes, lists_bytes, rows_bytes, graph_file, few_masks, fits_mask, sayable};
ghost use Rattle.graphfile.specs.Inside.Steps.{Room, PutIn, quorums_of, row_of, rows_of};

use crate::{ACCEPTORS_AT, LEARNERS_AT, LISTS_AT, MASK_BYTES, OUTER_LEN, VERSION, VERSION_AT};
use base::{put8, put16};
use graph::lists::pair_list;
use graph::{Graph, MAX_LEARNERS, MAX_MASKS, Mask};

// The masks of a file are below it.
const MASK_END: Mask = 65536;

// Whether every list has room for its masks.
fn counts_fit(counts: &[u8]) -> bool
    ensures { result ≡ all few_masks counts.now }
{
    counts.iter().all(|c| usize::from(*c) <= MAX_MASKS)
}

// Whether every mask fits a mask of a file.
fn masks_fit(masks: &[Mask]) -> bool
    ensures { result ≡ all fits_mask masks.now }
{
    masks.iter().all(|m| *m < MASK_END)
}

// Whether a file can say the graph.
pub fn sayable(graph: &Graph) -> bool
    ensures { result ≡ sayable graph.now }
{
    usize::from(graph.learners) <= MAX_LEARNERS
        && counts_fit(&graph.counts)
        && masks_fit(&graph.masks)
}

// A list: its count and its masks, put in from `at` on; the place behind it.
fn put_list(list: &[Mask], out: &mut [u8], at: usize) -> usize
    requires { (length list.now ≤ max_masks) × Room list.now out.old at (list_bytes list.now) }
    ensures { PutIn (list_bytes list.now) at result out.old out.new }
{
    put8(out, at, list.len() as u8);
    let mut here = at + 1;
    for m in list {
        put16(out, here, *m as usize);
        here += MASK_BYTES;
    }
    here
}

// The quorum list of each learner.
fn put_quorums(graph: &Graph, out: &mut [u8], at: usize) -> usize
    requires { (graph.now.learners ≤ max_learners) × Room graph.now.masks out.old at (lists_bytes (quorums_of graph.now)) }
    ensures { PutIn (lists_bytes (quorums_of graph.now)) at result out.old out.new }
{
    let mut here = at;
    for a in 0..usize::from(graph.learners) {
        here = put_list(graph.list(a), out, here);
    }
    here
}

// The safe lists of the pairs a-a, a-(a + 1) and so on.
fn put_row(graph: &Graph, a: usize, out: &mut [u8], at: usize) -> usize
    requires { (a ≤ graph.now.learners) × ((graph.now.learners ≤ max_learners) × Room graph.now.masks out.old at (lists_bytes (row_of graph.now a))) }
    ensures { PutIn (lists_bytes (row_of graph.now a)) at result out.old out.new }
{
    let mut here = at;
    for b in a..usize::from(graph.learners) {
        here = put_list(graph.list(pair_list(a, b)), out, here);
    }
    here
}

// The safe lists of all pairs.
fn put_rows(graph: &Graph, out: &mut [u8], at: usize) -> usize
    requires { (graph.now.learners ≤ max_learners) × Room graph.now.masks out.old at (rows_bytes (rows_of graph.now)) }
    ensures { PutIn (rows_bytes (rows_of graph.now)) at result out.old out.new }
{
    let mut here = at;
    for a in 0..usize::from(graph.learners) {
        here = put_row(graph, a, out, here);
    }
    here
}

// The whole file, from the front of `out` on; its length.
pub fn put_file(graph: &Graph, out: &mut [u8]) -> usize
    requires { (graph.now.learners ≤ max_learners) × Room graph.now.masks out.old 0 (graph_file graph.now) }
    ensures { PutIn (graph_file graph.now) 0 result out.old out.new }
{
    put8(out, VERSION_AT, VERSION);
    put8(out, ACCEPTORS_AT, graph.acceptors);
    put8(out, LEARNERS_AT, graph.learners);
    let at = put_quorums(graph, out, LISTS_AT);
    let end = put_rows(graph, out, at);
    put16(out, 0, end - OUTER_LEN);
    end
}
