// The graph file, read field by field from the front, each list put into its place as it is read.
ghost use Rattle.std.specs.Prelude.{◌≡◌, [], ◌+◌, ◌-◌, ◌*◌, ◌≤◌, ◌<◌, length};
ghost use Rattle.base.specs.Bytes.{be};
ghost use Rattle.graph.specs.Limits.{lists, max_learners, max_acceptors, max_masks, mask_bytes};
ghost use Rattle.graphfile.specs.File.{lists_at, mask_answer, read_count, read_masks, read_list, read_lists, read_rows, read_graph};
ghost use Rattle.graph.specs.Memory.{pair_list};
ghost use Rattle.graphfile.specs.Arrays.{hold, hold_all, hold_rows, held_in};
ghost use Rattle.graphfile.specs.Inside.Steps.{field_of, MasksHeld, HeldAfter, ReadFrom};

use crate::{LISTS_AT, MASK_BYTES};
use base::read16;
use base::refusal::Refusal;
use graph::lists::{known, pair_list, some_within};
use graph::{Graph, MAX_MASKS, Mask};

// Each reader gives what a field holds, or the place behind it; or why the file is turned down there.

// A byte from low to high.
pub fn read_count(s: &[u8], at: usize, low: usize, high: usize) -> Result<usize, Refusal>
    ensures { result ≡ field_of (read_count s.now low high at) }
{
    let x = usize::from(*s.get(at).ok_or(Refusal::Length)?);
    if x < low || high < x {
        return Err(Refusal::Range);
    }
    Ok(x)
}

// A mask of the file.
fn read_mask(s: &[u8], at: usize) -> Mask
    requires { at + mask_bytes ≤ length s.now }
    ensures { result ≡ be mask_bytes s.now at }
{
    read16(s, at) as Mask
}

// Whether m may stand behind the earlier masks of its list. It is not 0, so it is above none where it is the first.
fn mask_answer(acceptors: u8, earlier: &[Mask], m: Mask) -> Result<(), Refusal>
    requires { acceptors ≤ max_acceptors }
    ensures { result ≡ mask_answer acceptors earlier.now m }
{
    let all = known(acceptors);
    if m == 0 || all < m {
        return Err(Refusal::Mask);
    }
    let previous = earlier.last().copied().unwrap_or(0);
    if m <= previous {
        return Err(Refusal::Order);
    }
    if some_within(earlier, m | !all) {
        return Err(Refusal::Mask);
    }
    Ok(())
}

// `count` masks from `at` on, put into the places from `first` on.
fn read_masks(
    s: &[u8],
    at: usize,
    acceptors: u8,
    count: usize,
    first: usize,
    masks: &mut [Mask],
) -> Result<usize, Refusal>
    requires { ReadFrom s.now at acceptors × ((count ≤ max_masks) × (first + max_masks ≤ length masks.old)) }
    ensures { MasksHeld (read_masks s.now acceptors count [] at) result first masks.old masks.new }
{
    let mut here = at;
    for j in 0..count {
        if s.len() < here + MASK_BYTES {
            return Err(Refusal::Length);
        }
        let m = read_mask(s, here);
        mask_answer(acceptors, &masks[first..first + j], m)?;
        masks[first + j] = m;
        here += MASK_BYTES;
    }
    Ok(here)
}

// A list, put in as list k.
fn read_list(s: &[u8], at: usize, low: usize, k: usize, graph: &mut Graph) -> Result<usize, Refusal>
    requires { ReadFrom s.now at graph.old.acceptors × (k < lists) }
    ensures { HeldAfter (read_list s.now graph.old.acceptors low at) (hold k) result graph.old graph.new }
{
    let count = read_count(s, at, low, MAX_MASKS)?;
    graph.counts[k] = s[at];
    read_masks(
        s,
        at + 1,
        graph.acceptors,
        count,
        MAX_MASKS * k,
        &mut graph.masks,
    )
}

// The quorum list of each learner.
fn read_quorums(s: &[u8], at: usize, graph: &mut Graph) -> Result<usize, Refusal>
    requires { ReadFrom s.now at graph.old.acceptors × (graph.old.learners ≤ max_learners) }
    ensures { HeldAfter (read_lists s.now graph.old.acceptors 1 graph.old.learners [] at) (hold_all (λ a. a) 0) result graph.old graph.new }
{
    let mut here = at;
    for a in 0..usize::from(graph.learners) {
        here = read_list(s, here, 1, a, graph)?;
    }
    Ok(here)
}

// The safe lists of the pairs a-a, a-(a + 1) and so on.
fn read_row(s: &[u8], at: usize, a: usize, graph: &mut Graph) -> Result<usize, Refusal>
    requires { (a ≤ graph.old.learners) × (ReadFrom s.now at graph.old.acceptors × (graph.old.learners ≤ max_learners)) }
    ensures { HeldAfter (read_lists s.now graph.old.acceptors 0 (graph.old.learners - a) [] at) (hold_all (pair_list a) a) result graph.old graph.new }
{
    let mut here = at;
    for b in a..usize::from(graph.learners) {
        here = read_list(s, here, 0, pair_list(a, b), graph)?;
    }
    Ok(here)
}

// The safe lists of all pairs.
fn read_rows(s: &[u8], at: usize, graph: &mut Graph) -> Result<usize, Refusal>
    requires { ReadFrom s.now at graph.old.acceptors × (graph.old.learners ≤ max_learners) }
    ensures { HeldAfter (read_rows s.now graph.old.acceptors graph.old.learners [] at) (hold_rows 0) result graph.old graph.new }
{
    let mut here = at;
    for a in 0..usize::from(graph.learners) {
        here = read_row(s, here, a, graph)?;
    }
    Ok(here)
}

// All lists, and nothing behind them.
pub fn read_lists(s: &[u8], graph: &mut Graph) -> Result<usize, Refusal>
    requires { ReadFrom s.now lists_at graph.old.acceptors × (graph.old.learners ≤ max_learners) }
    ensures { HeldAfter (read_graph s.now graph.old.acceptors graph.old.learners lists_at) (λ f h. held_in h f) result graph.old graph.new }
{
    let at = read_quorums(s, LISTS_AT, graph)?;
    let end = read_rows(s, at, graph)?;
    if end != s.len() {
        return Err(Refusal::Length);
    }
    Ok(end)
}
