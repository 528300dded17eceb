// What is asked of a message before anything is written, and the start of a round: where an id is held, rows 10 to 12. What a message means is not
// asked here.
#![tactic(auto)]

pub mod lookup;
pub mod rows;
pub mod start;
