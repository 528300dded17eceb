// Repeated votes: a 2a whose previous message is a 2a of its ballot and learners, among its references, says nothing new.
ghost use Rattle.std.specs.Prelude.{◌≡◌, ℕ, ◌<◌, get_or};
ghost use Rattle.base.specs.Tests.{any};
ghost use Rattle.notes.specs.Inside.Layout.{word_notes, byte_notes};
ghost use Rattle.scan.specs.Inside.Arrays.{is_repeat};
ghost use Rattle.round.specs.Limits.{max_held};

use notes::{Notes, SECOND};

// Whether place j holds a 2a of this name, ballot and learners.
fn is_repeat(notes: &Notes, name: u8, ballot: u64, learners: u8, j: usize) -> bool
    requires { j < max_held }
    ensures { result ≡ is_repeat (word_notes notes.now.words) (byte_notes notes.now.octets) name ballot learners j }
{
    (notes.name_at(j) == name)
        & (notes.form_at(j) == SECOND)
        & (notes.top_at(j) == ballot)
        & (notes.learners_at(j) == learners)
}

// Whether one of these places does: then a 2a of this ballot and these learners that refers to them, and whose previous message has this name, is not
// well-formed.
pub fn is_repeated(notes: &Notes, places: &[u8], name: u8, ballot: u64, learners: u8) -> bool
    requires { (i : ℕ) → get_or places.now i 0 < max_held }
    ensures { result ≡ any (is_repeat (word_notes notes.now.words) (byte_notes notes.now.octets) name ballot learners) places.now }
{
    let mut found = false;
    for p in places {
        found = is_repeat(notes, name, ballot, learners, usize::from(*p)) | found;
    }
    found
}
