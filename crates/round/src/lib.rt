// One decision for one house and bay: its limits, and what a report says. The rules of opening, delivery and report are the definitions in specs/.
#![tactic(auto)]

// How many messages a round holds.
pub const MAX_HELD: usize = 128;

// Stands for no place: of a message that names no previous one, and where none was sent.
pub const NO_PLACE: u8 = 255;

// Stands for no acceptor number, listening only. A larger number is in no graph.
pub const LISTENING: u16 = 256;

// What a report answers: the least deciding ballot, and for a split also the least deciding one of another value.
#[derive(Clone, Copy, Debug, PartialEq, Eq)]
pub enum Report {
    Undecided,
    Decided(u64),
    Split(u64, u64),
}
