// What follows from the messages that a round holds: for each place what lies beneath it, its ballot, whether it is a 1b or a 2a, for which
// learners it is fresh or counts; and whether a new message is well-formed. One pass over the places, each from those before it; the notes are lent.
#![tactic(auto)]

pub mod new;
pub mod pass;
