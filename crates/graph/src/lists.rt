// The lists of masks of a graph. Sets are masks, joined, met and compared.
// These serve this crate and those above it, and ask for learners and lists in range: whoever calls them holds a graph that was read, or a round
// that passed row 17, and has no answer to give a second test.
ghost use Rattle.std.specs.Prelude.{◌≡◌, ℕ, ◌-◌, ◌^◌, ◌≤◌, ◌<◌, min, get_or};
ghost use Rattle.base.specs.Tests.{any};
ghost use Rattle.base.specs.Sets.{has, contains, apart};
ghost use Rattle.graph.specs.Limits.{lists, max_learners, max_masks, mask_bits};
ghost use Rattle.graph.specs.LearnerGraph.{is_quorum, safe_without};
ghost use Rattle.graph.specs.Memory.{triangle, list_of, pair_list, held_graph, view_of};
ghost use Rattle.graph.specs.Inside.Asking.{within};

use crate::{Graph, MASK_BITS, MAX_LEARNERS, MAX_MASKS, Mask};

// All acceptors below n. A shift by the width of a mask has no meaning, so that width is a case of its own.
pub fn known(n: u8) -> Mask
    ensures { result ≡ 2 ^ min n mask_bits - 1 }
{
    if n < MASK_BITS {
        (1u32 << n) - 1
    } else {
        4294967295
    }
}

// Whether the set contains the mask.
pub fn within(mask: Mask, set: Mask) -> bool
    ensures { result ≡ within set mask }
{
    mask & set == mask
}

// Whether the set contains one of the masks. As a chain, `any`, it made the check of the largest plan take 1.3 of its time.
pub fn some_within(list: &[Mask], set: Mask) -> bool
    ensures { result ≡ any (within set) list.now }
{
    for mask in list {
        if within(*mask, set) {
            return true;
        }
    }
    false
}

// 1 + 2 + .. + b.
fn triangle(b: usize) -> usize
    requires { b < max_learners }
    ensures { (result ≡ triangle b) × (result ≤ 28) }
{
    b * (b + 1) / 2
}

// Which list is that of the pair a-b.
pub fn pair_list(a: usize, b: usize) -> usize
    requires { (a < max_learners) × (b < max_learners) }
    ensures { (result ≡ pair_list a b) × (result < lists) }
{
    if a < b {
        MAX_LEARNERS + (triangle(b) + a)
    } else {
        MAX_LEARNERS + (triangle(a) + b)
    }
}

impl Graph {
    // The masks of list k.
    pub fn list(&self, k: usize) -> &[Mask]
        requires { k < lists }
        ensures { result.now ≡ list_of self.now.counts self.now.masks k }
    {
        let from = MAX_MASKS * k;
        let count = usize::from(self.counts[k]).min(MAX_MASKS);
        &self.masks[from..from + count]
    }

    // Whether a mask of list k has all its acceptors in the set. What is no acceptor counts as in the set.
    pub fn some_contained(&self, k: usize, set: Mask) -> bool
        requires { k < lists }
        ensures { result ≡ any (contains self.now.acceptors (has set)) (list_of self.now.counts self.now.masks k) }
    {
        let masks = self.list(k);
        some_within(masks, set | !known(self.acceptors))
    }

    // Whether a mask of list k has no acceptor in the set: it lies within all that is not in the set.
    pub fn some_apart(&self, k: usize, set: Mask) -> bool
        requires { k < lists }
        ensures { result ≡ any (apart self.now.acceptors (has set)) (list_of self.now.counts self.now.masks k) }
    {
        let masks = self.list(k);
        some_within(masks, !(set & known(self.acceptors)))
    }

    // Whether a set is a quorum of learner a.
    pub fn is_quorum(&self, a: usize, set: Mask) -> bool
        requires { a < max_learners }
        ensures own { result ≡ is_quorum (view_of self.now) a (has set) }
        ensures any_learners { (l : ℕ) → result ≡ is_quorum (held_graph self.now.acceptors l self.now.counts self.now.masks) a (has set) }
    {
        self.some_contained(a, set)
    }

    // Whether a listed safe mask of the pair a-b has no acceptor of the set.
    pub fn safe_without(&self, a: usize, b: usize, set: Mask) -> bool
        requires { (a < max_learners) × (b < max_learners) }
        ensures own { result ≡ safe_without (view_of self.now) a b (has set) }
        ensures any_learners { (l : ℕ) → result ≡ safe_without (held_graph self.now.acceptors l self.now.counts self.now.masks) a b (has set) }
    {
        self.some_apart(pair_list(a, b), set)
    }
}
