// An accepted message becomes known: at the place where it awaited its return, or behind the others. The round stands in the bytes s, and what is
// answered is the message's place.
ghost use Rattle.protocol.specs.Table.{offers};
ghost use Rattle.roundbytes.specs.Layout.{round_in};
ghost use Rattle.admission.specs.Inside.Votes.{record_of};
ghost use Rattle.judging.specs.Inside.Referring.{Referring};
ghost use Rattle.engine.specs.Inside.Entering.{Enterable, Enters};

use admission::rows::Vote;
use holding::hold::{hold_proposal, hold_vote, returned};
use roundbytes::readers::held_of;

// A proposal.
pub fn enter_proposal(
    s: &mut [u8],
    id: &[u8],
    proposer: u8,
    ballot: u64,
    found: Option<usize>,
) -> usize
    requires { Enterable s.old id.now found }
    ensures { Enters s.old s.new (offers id.now proposer ballot) found result }
{
    match found {
        Some(p) => {
            returned(s, p);
            p
        }
        None => {
            let p = held_of(s);
            hold_proposal(s, id, proposer, ballot);
            p
        }
    }
}

// An acceptor message.
pub fn enter_vote(s: &mut [u8], id: &[u8], vote: &Vote, found: Option<usize>) -> usize
    requires { Enterable s.old id.now found × Referring (round_in s.old) vote.now }
    ensures { Enters s.old s.new (record_of (round_in s.old) id.now vote.now) found result }
{
    match found {
        Some(p) => {
            returned(s, p);
            p
        }
        None => {
            let p = held_of(s);
            hold_vote(s, id, vote, 1);
            p
        }
    }
}
