// What is written when a message is accepted, in the bytes of a round, and the reply: the places that it refers to, and its bytes.
#![tactic(auto)]

pub mod hold;
pub mod reply;
