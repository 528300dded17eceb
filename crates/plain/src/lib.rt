// Digests, graph files and messages for callers that have numbers and byte slices alone: each call answers 0, or the number of the row that turns it
// down, and gives what it finds as bytes in a lent buffer. The crate hpaxos hands these out to C.
#![tactic(auto)]

pub mod digest_calls;
pub mod graph_calls;
pub mod message_calls;

ghost use Rattle.std.specs.Prelude.{◌≡◌};
ghost use Rattle.plain.specs.Answers.{answer_of};

use base::refusal::Refusal;

// 0, or the number of the row that turns the call down.
fn answer<T: Copy>(r: Result<T, Refusal>) -> u32
    ensures { result ≡ answer_of r }
{
    match r {
        Ok(_) => 0,
        Err(e) => u32::from(e),
    }
}
