// What the work-out pass asks of the places of a round, each by one loop over them: which places lie beneath a message, which fork, who is caught,
// whether a vote is repeated, and which place an id names. The round's bytes and its notes are lent whole.
#![tactic(auto)]

use places::Places;

pub mod beneath;
pub mod forks;
pub mod names;
pub mod repeats;

// What lies beneath a message: a set of places, its ballot, and whether it refers to a proposal.
#[derive(Clone, Copy)]
pub struct Under {
    pub set: Places,
    pub ballot: u64,
    pub offered: bool,
}
