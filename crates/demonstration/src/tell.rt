// What the program prints, in lines that a grower can read.
use crate::letter::{BAY, HOUSE, Letter};
use base::refusal::Refusal;
use message::ballot::value_of;
use round::Report;
use std::error::Error;
use std::fmt;

// Who is there.
pub const SITE: &str = "House 1 bay 12 has four controllers, 0 to 3, and three growers, 0 to 2.\n\
    Grower 0 goes by any three controllers, grower 1 by 0, 1 and 2 together, grower 2 by 0 and 1.";

// How to read the lines that follow.
pub const KINDS: &str =
    "1a: a proposal. 1b: a controller's answer to it. 2a: a controller's vote. The value is the percentage.";

pub const LIE: &str =
    "\nController 3 lies: its first word to grower 0 is for 70 percent, its first word to grower 1 for 40.";

// What comes next in the first part.
pub const RETURNS: &str =
    "What controller 0 sent returns to it. It has voted for every grower, so it has nothing to add.";

pub const PUSH: &str = "\nRound 6 offers 40 percent, and controller 3 pushes it.";

// What the second part showed, and what the third is.
pub const NO_VOTE: &str =
    "Controllers 1, 2 and 3 answered round 6, but no vote follows: 1 and 2 have voted for 70 percent.\n\n\
    The rest of round 5 reaches the growers, out of order.";

// The theorem that the growers can count on.
pub const WHY: &str =
    "\nWhy they agree although controller 3 lied: for each two growers the trust plan has controllers 0, 1\n\
    and 2 as a safe set, and none of these told two stories. No two growers then show different values,\n\
    whatever is sent and in whatever order it comes, as long as no two messages have one SHA-256.\n\
    This is the theorem AgreementOverLists, proved in crates/round.";

// A call that was turned down: the number of the refusal, with its words.
#[derive(Clone, Copy, Debug)]
pub struct Refused(pub Refusal);

impl Refused {
    fn words(&self) -> &'static str {
        match self.0 {
            Refusal::Length => "length wrong, bytes short or left over",
            Refusal::Version => "version not 1",
            Refusal::Range => "kind, marker or a count outside its range",
            Refusal::Order => "ids or masks not ascending",
            Refusal::Mask => "a mask zero, unknown or containing another",
            Refusal::NotValid => "graph not valid",
            Refusal::NotCondensed => "graph not condensed",
            Refusal::OtherRound => "another house or bay",
            Refusal::Signer => "signer not in the graph",
            Refusal::Known => "known already",
            Refusal::Reference => "a reference not known",
            Refusal::Previous => {
                "previous message not referred to, a proposal, or of another signer"
            }
            Refusal::Malformed1b => "1b not well-formed",
            Refusal::Malformed2a => "2a not well-formed",
            Refusal::Full => "full",
            Refusal::Argument => {
                "a number not there, a buffer too short, or a round that cannot be"
            }
        }
    }
}

impl fmt::Display for Refused {
    fn fmt<W: fmt::Write>(&self, f: &mut fmt::Formatter<W>) -> fmt::Result {
        write!(f, "refused, {}: {}", u32::from(self.0), self.words())
    }
}

impl Error for Refused {}

// What a party answers to a letter: a reply or none, or that it turns the letter's message down.
#[derive(Debug, Drop)]
pub struct Response(pub Result<Option<Letter>, Refusal>);

impl fmt::Display for Response {
    fn fmt<W: fmt::Write>(&self, f: &mut fmt::Formatter<W>) -> fmt::Result {
        match &self.0 {
            Ok(None) => f.write_str("no reply"),
            Ok(Some(reply)) => {
                write!(f, "reply of {} bytes, {}", reply.message.len(), reply.kind)
            }
            Err(refusal) => write!(f, "{}", Refused(*refusal)),
        }
    }
}

// The vent page of a grower.
#[derive(Clone, Copy, Debug)]
pub struct Page {
    pub grower: u8,
    pub report: Result<Report, Refusal>,
}

impl fmt::Display for Page {
    fn fmt<W: fmt::Write>(&self, f: &mut fmt::Formatter<W>) -> fmt::Result {
        write!(
            f,
            "Vent page of grower {}: house {HOUSE} bay {BAY}: ",
            self.grower
        )?;
        match self.report {
            Ok(Report::Undecided) => f.write_str("not agreed yet"),
            Ok(Report::Decided(b)) => write!(f, "vents at {} percent", value_of(b)),
            Ok(Report::Split(b, c)) => {
                write!(f, "split, {} and {} percent", value_of(b), value_of(c))
            }
            Err(refusal) => write!(f, "{}", Refused(refusal)),
        }
    }
}
