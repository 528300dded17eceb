// What makes a vote count for a learner: which votes are buried, for which learners a 1b is fresh, and which learners a 2a counts for. Each is asked by
// one loop over the places; the round's bytes and its notes are lent whole.
#![tactic(auto)]

pub mod learners;

// The highest of some ballots, and the highest of another value than that one's; 0 where there is none.
#[derive(Clone, Copy)]
pub struct Peaks {
    pub best: u64,
    pub other: u64,
}
