// One reader for each column of the notes: a function over the array that holds the column, and a method of the notes.
ghost use Rattle.std.specs.Prelude.{◌≡◌, ◌<◌, length, get_or};
ghost use Rattle.round.specs.Limits.{max_held};
ghost use Rattle.notes.specs.Inside.Layout.{id_keys, keys, words_len, name_slots, octets_len, word_notes, byte_notes};

use crate::{
    FORK_HIGH_AT, FORK_LOW_AT, FORKED_AT, FORMS_AT, FRESH_AT, HIGH_AT, ID_HIGH_AT, ID_LOW_AT,
    KEY_HIGH_AT, KEY_LOW_AT, LEARNERS_AT, Notes, TOPS_AT,
};
use places::Places;

// ---- columns of bytes
// The lowest place with the id of place p.
pub fn name_at(octets: &[u8], p: usize) -> u8
    requires { (length octets.now ≡ octets_len) × (p < name_slots) }
    ensures { result ≡ get_or (byte_notes octets.now).names p 0 }
{
    octets[p]
}

// The learners of a 2a.
pub fn learners_at(octets: &[u8], p: usize) -> u8
    requires { (length octets.now ≡ octets_len) × (p < max_held) }
    ensures { result ≡ get_or (byte_notes octets.now).learners p 0 }
{
    octets[LEARNERS_AT + p]
}

// The learners that a 1b is fresh for.
pub fn fresh_at(octets: &[u8], p: usize) -> u8
    requires { (length octets.now ≡ octets_len) × (p < max_held) }
    ensures { result ≡ get_or (byte_notes octets.now).fresh p 0 }
{
    octets[FRESH_AT + p]
}

// OFFER, FIRST or SECOND.
pub fn form_at(octets: &[u8], p: usize) -> u8
    requires { (length octets.now ≡ octets_len) × (p < max_held) }
    ensures { result ≡ get_or (byte_notes octets.now).forms p 0 }
{
    octets[FORMS_AT + p]
}

// ---- columns of words
// Its ballot.
pub fn top_at(words: &[u64], p: usize) -> u64
    requires { (length words.now ≡ words_len) × (p < max_held) }
    ensures { result ≡ get_or (word_notes words.now).tops p 0 }
{
    words[TOPS_AT + p]
}

// The places that it reaches.
pub fn beneath_at(words: &[u64], p: usize) -> Places
    requires { (length words.now ≡ words_len) × (p < max_held) }
    ensures { (result.low ≡ get_or (word_notes words.now).low p 0) × (result.high ≡ get_or (word_notes words.now).high p 0) }
{
    let low = words[p];
    let high = words[HIGH_AT + p];
    Places { low, high }
}

// The places before it that fork with it.
pub fn forks_at(words: &[u64], p: usize) -> Places
    requires { (length words.now ≡ words_len) × (p < max_held) }
    ensures { (result.low ≡ get_or (word_notes words.now).forklow p 0) × (result.high ≡ get_or (word_notes words.now).forkhigh p 0) }
{
    let low = words[FORK_LOW_AT + p];
    let high = words[FORK_HIGH_AT + p];
    Places { low, high }
}

// ---- the index
// The places whose ids have a key.
pub fn id_set(words: &[u64], k: usize) -> Places
    requires { (length words.now ≡ words_len) × (k < id_keys) }
    ensures { (result.low ≡ get_or (word_notes words.now).idlow k 0) × (result.high ≡ get_or (word_notes words.now).idhigh k 0) }
{
    let low = words[ID_LOW_AT + k];
    let high = words[ID_HIGH_AT + k];
    Places { low, high }
}

// The places that have a key.
pub fn key_set(words: &[u64], k: usize) -> Places
    requires { (length words.now ≡ words_len) × (k < keys) }
    ensures { (result.low ≡ get_or (word_notes words.now).keylow k 0) × (result.high ≡ get_or (word_notes words.now).keyhigh k 0) }
{
    let low = words[KEY_LOW_AT + k];
    let high = words[KEY_HIGH_AT + k];
    Places { low, high }
}

// The places that fork with one before them.
pub fn forked_in(words: &[u64]) -> Places
    requires { length words.now ≡ words_len }
    ensures { (result.low ≡ (word_notes words.now).forkedlow) × (result.high ≡ (word_notes words.now).forkedhigh) }
{
    let low = words[FORKED_AT];
    let high = words[FORKED_AT + 1];
    Places { low, high }
}

// ---- the same columns of the notes
impl Notes {
    // The lowest place with the id of place p.
    pub fn name_at(&self, p: usize) -> u8
        requires { p < name_slots }
        ensures { result ≡ get_or (byte_notes self.now.octets).names p 0 }
    {
        name_at(&self.octets, p)
    }

    // The learners of a 2a.
    pub fn learners_at(&self, p: usize) -> u8
        requires { p < max_held }
        ensures { result ≡ get_or (byte_notes self.now.octets).learners p 0 }
    {
        learners_at(&self.octets, p)
    }

    // The learners that a 1b is fresh for.
    pub fn fresh_at(&self, p: usize) -> u8
        requires { p < max_held }
        ensures { result ≡ get_or (byte_notes self.now.octets).fresh p 0 }
    {
        fresh_at(&self.octets, p)
    }

    // OFFER, FIRST or SECOND.
    pub fn form_at(&self, p: usize) -> u8
        requires { p < max_held }
        ensures { result ≡ get_or (byte_notes self.now.octets).forms p 0 }
    {
        form_at(&self.octets, p)
    }

    // Its ballot.
    pub fn top_at(&self, p: usize) -> u64
        requires { p < max_held }
        ensures { result ≡ get_or (word_notes self.now.words).tops p 0 }
    {
        top_at(&self.words, p)
    }

    // The places that it reaches.
    pub fn beneath_at(&self, p: usize) -> Places
        requires { p < max_held }
        ensures { (result.low ≡ get_or (word_notes self.now.words).low p 0) × (result.high ≡ get_or (word_notes self.now.words).high p 0) }
    {
        beneath_at(&self.words, p)
    }

    // The places before it that fork with it.
    pub fn forks_at(&self, p: usize) -> Places
        requires { p < max_held }
        ensures { (result.low ≡ get_or (word_notes self.now.words).forklow p 0) × (result.high ≡ get_or (word_notes self.now.words).forkhigh p 0) }
    {
        forks_at(&self.words, p)
    }

    // The places whose ids have a key.
    pub fn id_set(&self, k: usize) -> Places
        requires { k < id_keys }
        ensures { (result.low ≡ get_or (word_notes self.now.words).idlow k 0) × (result.high ≡ get_or (word_notes self.now.words).idhigh k 0) }
    {
        id_set(&self.words, k)
    }

    // The places that have a key.
    pub fn key_set(&self, k: usize) -> Places
        requires { k < keys }
        ensures { (result.low ≡ get_or (word_notes self.now.words).keylow k 0) × (result.high ≡ get_or (word_notes self.now.words).keyhigh k 0) }
    {
        key_set(&self.words, k)
    }

    // The places that fork with one before them.
    pub fn forked(&self) -> Places
        ensures { (result.low ≡ (word_notes self.now.words).forkedlow) × (result.high ≡ (word_notes self.now.words).forkedhigh) }
    {
        forked_in(&self.words)
    }
}
