// Which row applies first, where each test is handed in as what it answered. An Err names the row.
ghost use Rattle.std.specs.Prelude.{◌≡◌, IfOk, Some, is_none};
ghost use Rattle.order.specs.Inside.Rows.{row_of, head_row, chain_row, form_row};

use base::refusal::Refusal;

// Rows 8 to 10: the message is for another house or bay, the graph lacks its signer, it is known already.
pub fn head_row(other: bool, foreign: bool, known: bool) -> Result<(), Refusal>
    ensures { row_of result ≡ head_row other foreign known }
{
    if other {
        return Err(Refusal::OtherRound);
    }
    if foreign {
        return Err(Refusal::Signer);
    }
    if known {
        return Err(Refusal::Known);
    }
    Ok(())
}

// Rows 11 and 12: a reference is not known, the previous message is not named rightly. What was found for each is handed in, None where its row
// applies: the places of the references, and that of the previous message.
pub fn chain_row<T: Drop, U: Drop>(
    places: Option<T>,
    previous: Option<U>,
) -> Result<(T, U), Refusal>
    ensures ruled { row_of result ≡ chain_row (is_none places) (is_none previous) }
    ensures found { IfOk result (λ x. (places ≡ Some x.0) × (previous ≡ Some x.1)) }
{
    let places = places.ok_or(Refusal::Reference)?;
    let previous = previous.ok_or(Refusal::Previous)?;
    Ok((places, previous))
}

// Rows 14 to 16: the message is well-formed as a 1b and as a 2a, and there is no room for it.
pub fn form_row(formed1b: bool, formed2a: bool, full: bool) -> Result<(), Refusal>
    ensures { row_of result ≡ form_row formed1b formed2a full }
{
    if !formed1b {
        return Err(Refusal::Malformed1b);
    }
    if !formed2a {
        return Err(Refusal::Malformed2a);
    }
    if full {
        return Err(Refusal::Full);
    }
    Ok(())
}
