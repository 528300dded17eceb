// What can go wrong beside the output.
ghost use Rattle.std.specs.Prelude.{◌≡◌};
ghost use Rattle.std.specs.IoError.{error_kind};
ghost use Rattle.std.specs.declared.io.ErrorKind.TheVariants.{Other};
ghost use Rattle.demonstration.specs.declared.failure.Failure.TheVariants.{Refused};

use crate::tell;
use arrayvec::ArrayString;
use base::refusal::Refusal;
use std::error::Error;
use std::fmt::Write;
use std::{fmt, io};

// The story meets none of these: its output alone can fail.
#[derive(Clone, Copy, Debug)]
pub enum Failure {
    // The opening of a round, or a proposal.
    Refused(Refusal),
    NoLetter,
    NoParty,
    // The site has a letter in each place that a script can name.
    NoRoom,
}

impl fmt::Display for Failure {
    fn fmt<W: fmt::Write>(&self, f: &mut fmt::Formatter<W>) -> fmt::Result {
        match self {
            Failure::Refused(r) => write!(f, "{}", tell::Refused(*r)),
            Failure::NoLetter => f.write_str("no such letter"),
            Failure::NoParty => f.write_str("no such party"),
            Failure::NoRoom => f.write_str("no room for another letter"),
        }
    }
}

impl Error for Failure {}

impl From<Refusal> for Failure {
    ghost from_gives = { λ refusal failure. failure ≡ Refused refusal };

    fn from(refusal: Refusal) -> Failure {
        Failure::Refused(refusal)
    }
}

// An `io::Error` holds a copy of its words, up to 80 bytes, so that none of this takes memory.
impl From<Failure> for io::Error {
    ghost from_gives = { λ _ e. error_kind e ≡ Other };

    fn from(failure: Failure) -> io::Error {
        let mut words = ArrayString::<80>::new();
        match write!(words, "{failure}") {
            Ok(()) => io::Error::other(&words),
            Err(_) => io::Error::other("refused"),
        }
    }
}
