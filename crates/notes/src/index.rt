// The index of the places: for each key a set, so that a question is asked of few places.
ghost use Rattle.std.specs.Prelude.{◌≡◌, ◌&&◌, ℕ, ◌+◌, ◌<◌, T, length, get_or};
ghost use Rattle.base.specs.Bytes.{part};
ghost use Rattle.places.specs.Inside.PlaceSets.{in_set};
ghost use Rattle.notes.specs.Inside.Layout.{keys, second_form, word_notes};
ghost use Rattle.notes.specs.Inside.Index.{signer_key, link_key, ballot_key, form_key, Filed, Put, Backing, Walked};
ghost use Rattle.round.specs.Limits.{max_held};

use crate::{
    BALLOT_KEYS, BALLOT_KEYS_AT, FIRST, FORM_KEYS, FORM_KEYS_AT, KEYS, LINK_KEYS, LINK_KEYS_AT,
    Notes, SECOND, SIGNER_KEYS, Walks,
};
use places::Places;
use places::sets::put_place;

// The keys of 1bs and of 2as.
const FIRSTS: usize = FORM_KEYS_AT + FIRST as usize;

const SECONDS: usize = FORM_KEYS_AT + SECOND as usize;

fn signer_key(signer: u8) -> usize
    ensures { result ≡ signer_key signer }
{
    usize::from(signer) % SIGNER_KEYS
}

fn link_key(link: u8) -> usize
    ensures { result ≡ link_key link }
{
    LINK_KEYS_AT + usize::from(link) % LINK_KEYS
}

fn ballot_key(ballot: u64) -> usize
    ensures { result ≡ ballot_key ballot }
{
    BALLOT_KEYS_AT + (ballot >> 32) as usize % BALLOT_KEYS
}

fn form_key(form: u8) -> usize
    ensures { result ≡ form_key form }
{
    FORM_KEYS_AT + usize::from(form) % FORM_KEYS
}

impl Notes {
    // Those of a set that are in the set of key k.
    fn within(&self, k: usize, set: Places) -> Places
        requires { k < keys }
        ensures { (q : ℕ) → q < max_held → in_set result.low result.high q ≡ (in_set set.low set.high q && in_set (get_or (word_notes self.now.words).keylow k 0) (get_or (word_notes self.now.words).keyhigh k 0) q) }
    {
        let keyed = self.key_set(k);
        set.common(keyed)
    }

    // The places of a set that have this ballot, and perhaps others.
    pub fn peers_of(&self, set: Places, ballot: u64) -> Places
        ensures { (q : ℕ) → q < max_held → T (in_set set.low set.high q) → Filed (word_notes self.now.words).keylow (word_notes self.now.words).keyhigh (ballot_key ballot) q → T (in_set result.low result.high q) }
    {
        self.within(ballot_key(ballot), set)
    }

    // The places of a set that hold 1bs of this ballot, and perhaps others.
    pub fn backers_of(&self, set: Places, ballot: u64) -> Places
        ensures { Backing (word_notes self.now.words) set.low set.high ballot result.low result.high }
    {
        let ones = self.within(FIRSTS, set);
        self.within(ballot_key(ballot), ones)
    }

    // The places of 2as, and perhaps others.
    pub fn votes_in(&self) -> Places
        ensures { (q : ℕ) → Filed (word_notes self.now.words).keylow (word_notes self.now.words).keyhigh (form_key second_form) q → T (in_set result.low result.high q) }
    {
        self.key_set(SECONDS)
    }

    // The places to be asked for a message of this ballot, signer and link that reaches the places of a set.
    pub fn walks_for(&self, set: Places, ballot: u64, signer: u8, link: u8) -> Walks
        ensures { Walked (word_notes self.now.words) set.low set.high ballot signer link result }
    {
        let s = signer_key(signer);
        let own = self.key_set(s);
        let forks = self.within(link_key(link), own);
        let forked = self.forked();
        let caught = set.common(forked);
        let votes = self.within(SECONDS, set);
        let rivals = self.within(s, votes);
        let backers = self.backers_of(set, ballot);
        Walks {
            forks,
            caught,
            votes,
            rivals,
            backers,
        }
    }
}

// Place j put into the sets of its keys.
pub fn mark(sets: &mut [u64], signer: u8, link: u8, ballot: u64, form: u8, j: usize)
    requires { (j < max_held) × (length sets.old ≡ keys + keys) }
    ensures { Put (part keys sets.old 0) (part keys sets.old keys) (part keys sets.new 0) (part keys sets.new keys) signer link ballot form j }
{
    put_place(sets, KEYS, signer_key(signer), j);
    put_place(sets, KEYS, link_key(link), j);
    put_place(sets, KEYS, ballot_key(ballot), j);
    put_place(sets, KEYS, form_key(form), j);
}
