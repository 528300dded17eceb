// Why a call is turned down: one name for each row of the table "When a call is turned down". 13 was struck and is not used again.
ghost use Rattle.std.specs.Prelude.{◌≡◌};
ghost use Rattle.base.specs.Refusals.{number_of};

#[derive(Clone, Copy, Debug, PartialEq, Eq)]
pub enum Refusal {
    Length,
    Version,
    Range,
    Order,
    Mask,
    NotValid,
    NotCondensed,
    OtherRound,
    Signer,
    Known,
    Reference,
    Previous,
    Malformed1b,
    Malformed2a,
    Full,
    Argument,
}

// The row's number, which is all that leaves the library.
impl From<Refusal> for u32 {
    ghost from_gives = { λ r n. n ≡ number_of r };

    fn from(r: Refusal) -> u32 {
        match r {
            Refusal::Length => 1,
            Refusal::Version => 2,
            Refusal::Range => 3,
            Refusal::Order => 4,
            Refusal::Mask => 5,
            Refusal::NotValid => 6,
            Refusal::NotCondensed => 7,
            Refusal::OtherRound => 8,
            Refusal::Signer => 9,
            Refusal::Known => 10,
            Refusal::Reference => 11,
            Refusal::Previous => 12,
            Refusal::Malformed1b => 14,
            Refusal::Malformed2a => 15,
            Refusal::Full => 16,
            Refusal::Argument => 17,
        }
    }
}
