// The notes of the places of a round: what each held message means, in two arrays, with a reader for each column, the writers, and the index over
// them, so that a question is asked of few places.
#![tactic(auto)]

ghost use Rattle.std.specs.Prelude.{◌≡◌, length, replicate};
ghost use Rattle.notes.specs.Inside.Layout.{words_len, octets_len};

use places::Places;
use round::{MAX_HELD, NO_PLACE};

pub mod index;
pub mod readers;
pub mod writers;

// How many keys ids have.
pub const ID_KEYS: usize = 32;

// The keys of the places, one kind behind the other: of signers, of links, of ballots and of forms.
pub const SIGNER_KEYS: usize = 32;

pub const LINK_KEYS: usize = 16;

pub const BALLOT_KEYS: usize = 16;

pub const FORM_KEYS: usize = 4;

pub const LINK_KEYS_AT: usize = SIGNER_KEYS;

pub const BALLOT_KEYS_AT: usize = LINK_KEYS_AT + LINK_KEYS;

pub const FORM_KEYS_AT: usize = BALLOT_KEYS_AT + BALLOT_KEYS;

pub const KEYS: usize = FORM_KEYS_AT + FORM_KEYS;

// The form of a message: a proposal, a 1b or a 2a.
pub const OFFER: u8 = 0;

pub const FIRST: u8 = 1;

pub const SECOND: u8 = 2;

// In the words, from 0 on: the places that each place reaches, itself among them, as the low words of these sets and then the high ones.
pub const HIGH_AT: usize = MAX_HELD;

// Those before it that fork with it.
pub const FORK_LOW_AT: usize = HIGH_AT + MAX_HELD;

pub const FORK_HIGH_AT: usize = FORK_LOW_AT + MAX_HELD;

// Its ballot.
pub const TOPS_AT: usize = FORK_HIGH_AT + MAX_HELD;

// The places by the key of their ids, and by the keys of the index.
pub const ID_LOW_AT: usize = TOPS_AT + MAX_HELD;

pub const ID_HIGH_AT: usize = ID_LOW_AT + ID_KEYS;

pub const KEY_LOW_AT: usize = ID_HIGH_AT + ID_KEYS;

pub const KEY_HIGH_AT: usize = KEY_LOW_AT + KEYS;

// The places that fork with one before them: one set.
pub const FORKED_AT: usize = KEY_HIGH_AT + KEYS;

pub const WORDS: usize = FORKED_AT + 2;

// In the bytes, from 0 on: the lowest place with the id of each place, and for none, none.
pub const NAME_SLOTS: usize = NO_PLACE as usize + 1;

// Its learners, those that it is fresh for, and its form.
pub const LEARNERS_AT: usize = NAME_SLOTS;

pub const FRESH_AT: usize = LEARNERS_AT + MAX_HELD;

pub const FORMS_AT: usize = FRESH_AT + MAX_HELD;

pub const OCTETS: usize = FORMS_AT + MAX_HELD;

// What the places of a round mean, each column of it at its place in one of two arrays.
#[derive(Drop)]
pub struct Notes {
    pub words: [u64; WORDS],
    pub octets: [u8; OCTETS],
    pub ghost word_room: { length words ≡ words_len },
    pub ghost octet_room: { length octets ≡ octets_len },
}

impl Notes {
    // Room for notes, with nothing noted.
    pub fn new() -> Notes
        ensures { (result.words ≡ replicate words_len 0) × (result.octets ≡ replicate octets_len 0) }
    {
        Notes {
            words: [0; WORDS],
            octets: [0; OCTETS],
        }
    }
}

// What is worked out for a held message.
#[derive(Clone, Copy)]
pub struct Worked {
    // The places that it reaches.
    pub beneath: Places,
    // The places before it that fork with it.
    pub forks: Places,
    pub ballot: u64,
    // The learners of a 2a, and those that a 1b is fresh for.
    pub learners: u8,
    pub fresh: u8,
    // OFFER, FIRST or SECOND.
    pub form: u8,
}

// The places that are asked for a message: whether they fork with it, whether one that it reaches was caught, whether one is a vote, a vote of its
// own signer, or a 1b of its ballot.
#[derive(Clone, Copy)]
pub struct Walks {
    pub forks: Places,
    pub caught: Places,
    pub votes: Places,
    pub rivals: Places,
    pub backers: Places,
}
