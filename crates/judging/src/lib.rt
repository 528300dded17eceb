// What decides on a message, over a round's bytes: rows 8 to 16, by what the look-ups found and by what the held messages mean; and the report for a
// learner. Only the crates answering and engine call these. They ask for bytes that a round stands in, and
// where the pass is asked, for one that passed row 17: engine has tested these by then, and what it hands out refuses instead.
#![tactic(auto)]

pub mod rows;
pub mod verdict;
