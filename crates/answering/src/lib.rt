// What follows on an accepted message, over a round's bytes: the reply formed, judged, and sent or not. Only the crate engine calls this. The functions
// ask for a whole round in the bytes, one that passed row 17 and has room for a reply: engine has tested these by then.
#![tactic(auto)]

pub mod answer;
