// A party's side: its round, as the calls keep it.
ghost use Rattle.std.specs.Prelude.{◌≡◌, IfOk, IfSome, replicate};
ghost use Rattle.engine.specs.Calls.{open_to, deliver_to, report_answer};

use crate::failure::Failure;
use crate::letter::{BAY, HOUSE, Kind, Letter, Name};
use crate::tell::{Page, Response};
use message::layout::MAX_LEN;
use round::LISTENING;
use roundbytes::ROUND_LEN;

// The trust plan as a graph file.
pub const PLAN: [u8; 44] = [
    // 42 bytes follow; version 1, 4 controllers, 3 growers. A mask has a bit for each controller.
    0, 42, 1, 4, 3,
    // Quorums of grower 0: any three controllers.
    4, 0, 0b0111, 0, 0b1011, 0, 0b1101, 0, 0b1110,
    // Of growers 1 and 2: controllers 0, 1 and 2; 0 and 1.
    1, 0, 0b0111, 1, 0, 0b0011,
    // Safe sets of 0-0: any three controllers.
    4, 0, 0b0111, 0, 0b1011, 0, 0b1101, 0, 0b1110,
    // Of 0-1, 0-2, 1-1, 1-2 and 2-2: controllers 0, 1 and 2.
    1, 0, 0b0111, 1, 0, 0b0111, 1, 0, 0b0111, 1, 0, 0b0111, 1, 0, 0b0111,
];

// A controller or a grower.
#[derive(Clone, Copy)]
pub struct Party {
    pub name: Name,
    round: [u8; ROUND_LEN],
    // The largest ballot beneath the messages that its next reply builds on.
    ballot: u64,
}

impl Party {
    pub fn controller(number: u8) -> Result<Party, Failure>
        ensures { IfOk result (λ p. (p.name ≡ Name.Controller number) × (p.round ≡ open_to PLAN HOUSE BAY number (replicate ROUND_LEN 0))) }
    {
        Party::new(Name::Controller(number), u32::from(number))
    }

    // A grower's round only listens.
    pub fn grower(number: u8) -> Result<Party, Failure>
        ensures { IfOk result (λ p. (p.name ≡ Name.Grower number) × (p.round ≡ open_to PLAN HOUSE BAY LISTENING (replicate ROUND_LEN 0))) }
    {
        Party::new(Name::Grower(number), u32::from(LISTENING))
    }

    fn new(name: Name, own: u32) -> Result<Party, Failure>
        ensures { IfOk result (λ p. (p.name ≡ name) × (p.round ≡ open_to PLAN HOUSE BAY own (replicate ROUND_LEN 0))) }
    {
        let mut round = [0u8; ROUND_LEN];
        engine::open(&PLAN, HOUSE, BAY, own, &mut round)?;
        Ok(Party {
            name,
            round,
            ballot: 0,
        })
    }

    // Delivers a letter's message to the round.
    pub fn deliver(&mut self, letter: &Letter) -> Response
        ensures round { self.new.round ≡ deliver_to self.old.round letter.now.message.items (replicate MAX_LEN 0) }
        ensures name { self.new.name ≡ self.old.name }
    {
        let mut reply = [0u8; MAX_LEN];
        match engine::deliver(&mut self.round, &letter.message, &mut reply) {
            Ok(Some(len)) => {
                self.builds_on(letter);
                let reply = letter.reply(&reply, len, self.name, self.ballot).unwrap();
                Response(Ok(Some(reply)))
            }
            Ok(None) => {
                // A proposal that gets no reply is not built on.
                if letter.kind != Kind::Proposal {
                    self.builds_on(letter);
                }
                Response(Ok(None))
            }
            Err(refusal) => Response(Err(refusal)),
        }
    }

    fn builds_on(&mut self, letter: &Letter)
        ensures { (self.new.round ≡ self.old.round) × (self.new.name ≡ self.old.name) }
    {
        self.ballot = self.ballot.max(letter.ballot);
    }

    // The vent page of a grower; a controller has none.
    pub fn page(&self) -> Option<Page>
        ensures { IfSome result (λ p. (self.now.name ≡ Name.Grower p.grower) × (p.report ≡ report_answer self.now.round p.grower)) }
    {
        match self.name {
            Name::Grower(grower) => Some(Page {
                grower,
                report: engine::report(&self.round, grower),
            }),
            Name::Controller(_) | Name::Proposer(_) => None,
        }
    }
}
