// An acceptor message that passed rows 8 to 12: refused by the first of rows 14 to 16 that applies, or else entered and answered. The round stands in
// the bytes s.
ghost use Rattle.digest.specs.Sha256.{sha256};
ghost use Rattle.round.specs.Rows.{message_of};
ghost use Rattle.round.specs.Delivery.{decided_by};
ghost use Rattle.roundbytes.specs.Layout.{round_in};
ghost use Rattle.roundbytes.specs.Inside.Keeping.{Kept};
ghost use Rattle.admission.specs.Inside.Votes.{record_of};
ghost use Rattle.judging.specs.Inside.Turning.{sound_row};
ghost use Rattle.answering.specs.Inside.Giving.{Gives, left};
ghost use Rattle.engine.specs.Inside.Entering.{Settles};

use crate::enter::enter_vote;
use admission::rows::Vote;
use answering::answer::process;
use base::refusal::Refusal;
use derive::pass::work_out;
use judging::rows::sound_row;
use notes::Notes;
use roundbytes::graph_in;
use roundbytes::readers::held_of;

// The held messages are worked out once, for the rows and for the reply.
pub fn settle(
    s: &mut [u8],
    id: &[u8],
    found: Option<usize>,
    vote: &Vote,
    reply: &mut [u8],
) -> Result<Option<usize>, Refusal>
    requires { Settles s.old id.now found vote.now reply.old }
    ensures given { Gives (decided_by sha256 (round_in s.old) id.now (record_of (round_in s.old) id.now vote.now)
        (sound_row (round_in s.old) id.now (message_of (round_in s.old) (record_of (round_in s.old) id.now vote.now)))) (left result s.new) reply.old reply.new }
    ensures kept { Kept s.old s.new }
{
    let graph = graph_in(s);
    let mut notes = Notes::new();
    work_out(s, &graph, &mut notes);
    sound_row(s, &graph, &notes, id, vote, found)?;
    let n = held_of(s);
    let p = enter_vote(s, id, vote, found);
    process(s, &graph, &mut notes, n, p, reply)
}
