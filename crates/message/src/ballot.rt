// Ballots: the upper 32 bits are the round number and the lower 32 bits the value.
ghost use Rattle.std.specs.Prelude.{◌≡◌};
ghost use Rattle.base.specs.Ballots.{ballot_of, round_of, value_of};
ghost use Rattle.message.specs.Writer.{meant_round};

use base::value;

// The round number that 0 stands for.
const FIRST_ROUND: u32 = 1;

pub fn ballot_of(round: u32, value: u32) -> u64
    ensures { result ≡ ballot_of round value }
{
    ((round as u64) << 32) | (value as u64)
}

pub fn round_of(ballot: u64) -> u32
    ensures { result ≡ round_of ballot }
{
    (ballot >> 32) as u32
}

pub fn value_of(ballot: u64) -> u32
    ensures { result ≡ value_of ballot }
{
    value(ballot) as u32
}

// The round number that a caller means who asks for a proposal: 0 stands for 1. The writer writes what it is given.
pub fn meant_round(round: u32) -> u32
    ensures { result ≡ meant_round round }
{
    if round == 0 { FIRST_ROUND } else { round }
}
