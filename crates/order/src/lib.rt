// Rows 8 to 16 of the table "When a call is turned down", as far as they ask for no table: the tests of 8, 9 and 16, which compare numbers, and the
// order of all of them, over tests that were made.
#![tactic(auto)]

use round::{LISTENING, MAX_HELD};

pub mod rows;

ghost use Rattle.std.specs.Prelude.{◌≡◌, not, ◌&&◌, eqb, ltb, leb};
ghost use Rattle.base.specs.Tests.{pick};
ghost use Rattle.round.specs.Limits.{max_held, acceptor_room, listening};

// Row 8: whether a message is for another house or bay.
pub fn is_other(house: u16, bay: u16, own_house: u16, own_bay: u16) -> bool
    ensures { result ≡ not (eqb house own_house && eqb bay own_bay) }
{
    (house, bay) != (own_house, own_bay)
}

// Row 9: whether the graph lacks the signer of an acceptor message.
pub fn is_foreign(acceptors: u8, signer: u8) -> bool
    ensures { result ≡ leb acceptors signer }
{
    acceptors <= signer
}

// How many messages fit a round, and how many an acceptor's, which keeps a place for its reply.
const ROOM: u8 = MAX_HELD as u8;

const ACCEPTOR_ROOM: u8 = ROOM - 1;

// Row 16: whether there is no room. A place is kept for an acceptor's reply, unless what arrives is already held.
pub fn is_full(held: u8, own: u16, awaited: bool) -> bool
    ensures { result ≡ leb (pick (ltb own listening && not awaited) acceptor_room max_held) held }
{
    let room = if own < LISTENING && !awaited {
        ACCEPTOR_ROOM
    } else {
        ROOM
    };
    room <= held
}
