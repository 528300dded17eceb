// Whether a graph is condensed: for all a, b, c, the union of a listed mask of a-b and one of b-c contains a listed mask of a-c.
ghost use Rattle.std.specs.Prelude.{◌≡◌, ◌||◌, ◌≤◌, ◌<◌};
ghost use Rattle.base.specs.Tests.{any, all, below};
ghost use Rattle.base.specs.Sets.{has, contains};
ghost use Rattle.graph.specs.Limits.{lists, max_learners};
ghost use Rattle.graph.specs.LearnerGraph.{condensed_at, condensed};
ghost use Rattle.graph.specs.Memory.{list_of, held_graph, view_of, GraphSized};

use crate::lists::pair_list;
use crate::{Graph, Mask};

impl Graph {
    // The union of s and any mask of list k contains a mask of list m.
    fn joins(&self, k: usize, m: usize, s: Mask) -> bool
        requires { (k < lists) × (m < lists) }
        ensures { result ≡ all (λ t. any (contains self.now.acceptors (λ p. has s p || has t p)) (list_of self.now.counts self.now.masks m)) (list_of self.now.counts self.now.masks k) }
    {
        self.list(k).iter().all(|t| self.some_contained(m, s | *t))
    }

    fn condensed_at(&self, a: usize, b: usize, c: usize) -> bool
        requires { (a < max_learners) × ((b < max_learners) × (c < max_learners)) }
        ensures { result ≡ condensed_at (view_of self.now) a b c }
    {
        let ab = pair_list(a, b);
        let bc = pair_list(b, c);
        let ac = pair_list(a, c);
        self.list(ab).iter().all(|s| self.joins(bc, ac, *s))
    }

    // The same for every c, from the last down (DECISIONS 75).
    fn condensed_pair(&self, a: usize, b: usize) -> bool
        requires { (self.now.learners ≤ max_learners) × ((a < max_learners) × (b < max_learners)) }
        ensures { result ≡ all (λ c. condensed_at (view_of self.now) a b c) (below self.now.learners) }
    {
        for c in (0..usize::from(self.learners)).rev() {
            if !self.condensed_at(a, b, c) {
                return false;
            }
        }
        true
    }

    // The same for every b.
    fn condensed_row(&self, a: usize) -> bool
        requires { (self.now.learners ≤ max_learners) × (a < max_learners) }
        ensures { result ≡ all (λ b. all (λ c. condensed_at (view_of self.now) a b c) (below self.now.learners)) (below self.now.learners) }
    {
        for b in (0..usize::from(self.learners)).rev() {
            if !self.condensed_pair(a, b) {
                return false;
            }
        }
        true
    }

    // Row 7: whether the graph is condensed.
    pub fn is_condensed(&self) -> bool
        requires { self.now.learners ≤ max_learners }
        ensures { result ≡ condensed (view_of self.now) }
    {
        for a in (0..usize::from(self.learners)).rev() {
            if !self.condensed_row(a) {
                return false;
            }
        }
        true
    }
}

// Row 7 of lists alone, in slices as long as the arrays of a graph.
pub fn is_condensed<'a>(counts: &'a [u8], masks: &'a [Mask], acceptors: u8, learners: usize) -> bool
    requires { (learners ≤ max_learners) × GraphSized counts.now masks.now }
    ensures { result ≡ condensed (held_graph acceptors learners counts.now masks.now) }
{
    Graph::held(counts, masks, acceptors, learners).is_condensed()
}
