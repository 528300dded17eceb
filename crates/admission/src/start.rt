// An opening, after its graph file was accepted.
ghost use Rattle.std.specs.Prelude.{◌≡◌, true, ◌≤◌, length, Ok, Err};
ghost use Rattle.base.specs.Tests.{pick};
ghost use Rattle.base.specs.declared.refusal.Refusal.TheVariants.{Argument};
ghost use Rattle.round.specs.Limits.{no_place, listening, own_allowed};
ghost use Rattle.round.specs.Opening.{empty_round};
ghost use Rattle.roundbytes.specs.Layout.{round_len};
ghost use Rattle.roundbytes.specs.Opening.{opened_to};

use base::refusal::Refusal;
use graph::Graph;
use roundbytes::put_empty;

// Stands for no acceptor number.
const LISTENING: u32 = round::LISTENING as u32;

// Whether an own acceptor number is in the graph, or LISTENING. A number above it is in no graph.
pub fn own_fits(own: u32, acceptors: u8) -> bool
    ensures allowed { result ≡ own_allowed own acceptors }
    ensures narrow { result ≡ true → own ≤ listening }
{
    if own == LISTENING {
        return true;
    }
    own < acceptors as u32
}

// Puts the opened round, which holds no message, to the front of a buffer. An acceptor number that the graph lacks is refused, and then no
// byte is written.
pub fn start(graph: Graph, house: u16, bay: u16, own: u32, s: &mut [u8]) -> Result<(), Refusal>
    requires { round_len ≤ length s.old }
    ensures answer { result ≡ pick (own_allowed own graph.acceptors) (Ok tt) (Err Argument) }
    ensures bytes { s.new ≡ opened_to result (empty_round graph house bay own no_place) s.old }
{
    if !own_fits(own, graph.acceptors) {
        return Err(Refusal::Argument);
    }
    put_empty(graph, house, bay, own as u16, s);
    Ok(())
}
