// The learner graph of a site in memory: its quorums and safe sets asked about, and whether it is valid and condensed.
#![tactic(auto)]

use base::refusal::Refusal;

pub mod condensed;
pub mod lists;
pub mod valid;

ghost use Rattle.std.specs.Prelude.{◌≡◌, ◌≤◌};
ghost use Rattle.graph.specs.Limits.{max_learners};
ghost use Rattle.graph.specs.Answers.{graph_answer};
ghost use Rattle.graph.specs.Memory.{held_graph, view_of, GraphSized};

// A set of acceptors: bit p is acceptor p.
pub type Mask = u32;

pub const MASK_BITS: u8 = 32;

pub const MAX_ACCEPTORS: usize = 16;

pub const MAX_LEARNERS: usize = 8;

pub const MAX_MASKS: usize = 8;

// A list for each learner and one for each pair of learners, each with room for MAX_MASKS masks.
pub const LISTS: usize = MAX_LEARNERS + MAX_LEARNERS * (MAX_LEARNERS + 1) / 2;

pub const MASK_SLOTS: usize = MAX_MASKS * LISTS;

// A graph in memory. List k has counts[k] masks, from masks[MAX_MASKS * k] on: list a is learner a's quorums, and `pair_list(a, b)` the safe
// list of the pair a-b. What is not used is 0.
#[derive(Clone, Copy)]
pub struct Graph {
    pub acceptors: u8,
    pub learners: u8,
    pub counts: [u8; LISTS],
    pub masks: [Mask; MASK_SLOTS],
}

impl Graph {
    // The graph of these lists.
    fn held(counts: &[u8], masks: &[Mask], acceptors: u8, learners: usize) -> Graph
        requires { (learners ≤ max_learners) × GraphSized counts.now masks.now }
        ensures { view_of result ≡ held_graph acceptors learners counts.now masks.now }
    {
        let mut graph = Graph {
            acceptors,
            learners: learners as u8,
            counts: [0; LISTS],
            masks: [0; MASK_SLOTS],
        };
        graph.counts.copy_from_slice(counts);
        graph.masks.copy_from_slice(masks);
        graph
    }

    // Rows 6 and 7: `is_valid`, then `is_condensed`. All three ask for at most MAX_LEARNERS learners: whoever calls them has put the lists of a file
    // into a graph, and has no answer to give a second test.
    pub fn judge(&self) -> Result<(), Refusal>
        requires { self.now.learners ≤ max_learners }
        ensures { result ≡ graph_answer (view_of self.now) }
    {
        if !self.is_valid() {
            return Err(Refusal::NotValid);
        }
        if !self.is_condensed() {
            return Err(Refusal::NotCondensed);
        }
        Ok(())
    }
}

// Rows 6 and 7 of lists alone, in slices as long as the arrays of a graph.
pub fn graph_answer<'a>(
    counts: &'a [u8],
    masks: &'a [Mask],
    acceptors: u8,
    learners: usize,
) -> Result<(), Refusal>
    requires { (learners ≤ max_learners) × GraphSized counts.now masks.now }
    ensures { result ≡ graph_answer (held_graph acceptors learners counts.now masks.now) }
{
    Graph::held(counts, masks, acceptors, learners).judge()
}
