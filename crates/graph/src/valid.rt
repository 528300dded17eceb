// Whether a graph is valid: for every pair a, b (a = b included), every listed safe mask and every listed quorum of a and of b, the three have
// a common acceptor.
ghost use Rattle.std.specs.Prelude.{◌≡◌, ◌≤◌, ◌<◌};
ghost use Rattle.base.specs.Tests.{all, below};
ghost use Rattle.graph.specs.Limits.{max_learners};
ghost use Rattle.graph.specs.LearnerGraph.{common, valid_at, valid};
ghost use Rattle.graph.specs.Memory.{list_of, held_graph, view_of, GraphSized};

use crate::lists::pair_list;
use crate::{Graph, Mask};

impl Graph {
    // Every quorum of a and every quorum of b have an acceptor in common with each other and with s: no quorum of b is apart from what a quorum
    // of a has in common with s.
    fn meets(&self, a: usize, b: usize, s: Mask) -> bool
        requires { (a < max_learners) × (b < max_learners) }
        ensures { result ≡ all (λ q. all (λ t. common (view_of self.now) s q t) (list_of self.now.counts self.now.masks b)) (list_of self.now.counts self.now.masks a) }
    {
        self.list(a).iter().all(|q| !self.some_apart(b, s & *q))
    }

    // The same for every safe mask of a-b.
    fn valid_at(&self, a: usize, b: usize) -> bool
        requires { (a < max_learners) × (b < max_learners) }
        ensures { result ≡ valid_at (view_of self.now) a b }
    {
        let k = pair_list(a, b);
        self.list(k).iter().all(|s| self.meets(a, b, *s))
    }

    // The same for every b, from the last down (DECISIONS 75).
    fn valid_row(&self, a: usize) -> bool
        requires { (self.now.learners ≤ max_learners) × (a < max_learners) }
        ensures { result ≡ all (λ b. valid_at (view_of self.now) a b) (below self.now.learners) }
    {
        for b in (0..usize::from(self.learners)).rev() {
            if !self.valid_at(a, b) {
                return false;
            }
        }
        true
    }

    // Row 6: whether the graph is valid.
    pub fn is_valid(&self) -> bool
        requires { self.now.learners ≤ max_learners }
        ensures { result ≡ valid (view_of self.now) }
    {
        for a in (0..usize::from(self.learners)).rev() {
            if !self.valid_row(a) {
                return false;
            }
        }
        true
    }
}

// Row 6 of lists alone, in slices as long as the arrays of a graph.
pub fn is_valid<'a>(counts: &'a [u8], masks: &'a [Mask], acceptors: u8, learners: usize) -> bool
    requires { (learners ≤ max_learners) × GraphSized counts.now masks.now }
    ensures { result ≡ valid (held_graph acceptors learners counts.now masks.now) }
{
    Graph::held(counts, masks, acceptors, learners).is_valid()
}
