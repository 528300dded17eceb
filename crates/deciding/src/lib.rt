// Which ballots decide for a learner: a ballot decides where the known 2as of it that count for the learner come from a quorum of the learner. Asked of
// the notes of the places of a round (crate notes).
#![tactic(auto)]

pub mod report;
