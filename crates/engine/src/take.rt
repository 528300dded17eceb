// A message that was read: refused by the first row that applies, or else entered and answered. The round stands in the bytes s. Each id that the
// message has is looked up once, and what was found is handed on.
ghost use Rattle.std.specs.Prelude.{◌≡◌, Ok};
ghost use Rattle.digest.specs.Sha256.{sha256};
ghost use Rattle.message.specs.Reader.{reading};
ghost use Rattle.message.specs.declared.Message.TheVariants.{OfAcceptor};
ghost use Rattle.round.specs.Rows.{reference_ids, previous_id};
ghost use Rattle.round.specs.Delivery.{proposal_taken, acceptor_taken};
ghost use Rattle.roundbytes.specs.Layout.{round_in};
ghost use Rattle.roundbytes.specs.Inside.Keeping.{Kept};
ghost use Rattle.answering.specs.Inside.Giving.{Gives, left};
ghost use Rattle.engine.specs.Inside.Entering.{Takes};

use crate::enter::enter_proposal;
use crate::settle::settle;
use admission::lookup::place_of;
use admission::rows::is_known;
use answering::answer::process_offer;
use base::refusal::Refusal;
use judging::rows::{chain_row, head_row, lacks_room, of_another};
use message::{AcceptorMessage, Proposal};

// A proposal: rows 8, 10 and 16.
pub fn take_proposal(
    s: &mut [u8],
    id: &[u8],
    m: Proposal,
    reply: &mut [u8],
) -> Result<Option<usize>, Refusal>
    requires { Takes s.old id.now reply.old }
    ensures given { Gives (proposal_taken sha256 (round_in s.old) id.now m) (left result s.new) reply.old reply.new }
    ensures kept { Kept s.old s.new }
{
    if of_another(s, m.house, m.bay) {
        return Err(Refusal::OtherRound);
    }
    let found = place_of(s, id);
    if is_known(s, found) {
        return Err(Refusal::Known);
    }
    if lacks_room(s, found) {
        return Err(Refusal::Full);
    }
    let p = enter_proposal(s, id, m.proposer, m.ballot, found);
    process_offer(s, p, reply)
}

// An acceptor message that was read from these bytes: rows 8 to 16.
pub fn take_vote<'a>(
    s: &mut [u8],
    id: &'a [u8],
    m: AcceptorMessage,
    bytes: &'a [u8],
    reply: &mut [u8],
) -> Result<Option<usize>, Refusal>
    requires { Takes s.old id.now reply.old × (reading bytes.now ≡ Ok (OfAcceptor m)) }
    ensures given { Gives (acceptor_taken sha256 (round_in s.old) id.now m (previous_id bytes.now m) (reference_ids bytes.now m)) (left result s.new) reply.old reply.new }
    ensures kept { Kept s.old s.new }
{
    let found = place_of(s, id);
    head_row(s, m, found)?;
    let vote = chain_row(s, bytes, m)?;
    settle(s, id, found, &vote, reply)
}
