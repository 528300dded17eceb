// What a held message means, worked out from the notes of the places before it.
#![tactic(auto)]

pub mod step;

// What is asked of a new message before it is taken or sent.
#[derive(Clone, Copy)]
pub struct Note {
    // Whether it is well-formed as a 1b and as a 2a.
    pub formed1b: bool,
    pub formed2a: bool,
}
