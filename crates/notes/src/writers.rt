// What is written into the notes.
ghost use Rattle.std.specs.Prelude.{◌≡◌, ◌<◌};
ghost use Rattle.round.specs.Limits.{max_held};
ghost use Rattle.notes.specs.Inside.Layout.{id_keys, name_slots, word_notes, byte_notes};
ghost use Rattle.notes.specs.Inside.Writing.{words_noted, bytes_noted, FiledIn, IdFiled, with_name};

use crate::index::mark;
use crate::{
    FORK_HIGH_AT, FORK_LOW_AT, FORKED_AT, FORMS_AT, FRESH_AT, HIGH_AT, ID_KEYS, ID_LOW_AT,
    KEY_LOW_AT, LEARNERS_AT, Notes, TOPS_AT, Worked,
};
use places::sets::put_place;

impl Notes {
    // What was worked out for the held message at place p is put down.
    pub fn note_down(&mut self, r: Worked, p: usize)
        requires { p < max_held }
        ensures { (word_notes self.new.words ≡ words_noted (word_notes self.old.words) r p) × (byte_notes self.new.octets ≡ bytes_noted (byte_notes self.old.octets) r p) }
    {
        let b = r.beneath;
        let f = r.forks;
        self.words[p] = b.low;
        self.words[HIGH_AT + p] = b.high;
        self.words[FORK_LOW_AT + p] = f.low;
        self.words[FORK_HIGH_AT + p] = f.high;
        self.words[TOPS_AT + p] = r.ballot;
        self.octets[LEARNERS_AT + p] = r.learners;
        self.octets[FRESH_AT + p] = r.fresh;
        self.octets[FORMS_AT + p] = r.form;
    }

    // Place p is put into the sets of its keys, and among the places that fork with one before them where it does.
    pub fn file_place(&mut self, signer: u8, link: u8, ballot: u64, form: u8, forks: bool, p: usize)
        requires { p < max_held }
        ensures { FiledIn (word_notes self.old.words) (word_notes self.new.words) signer link ballot form forks p × (self.new.octets ≡ self.old.octets) }
    {
        let forked = self.forked().with(p, forks);
        let words = &mut self.words;
        mark(
            &mut words[KEY_LOW_AT..FORKED_AT],
            signer,
            link,
            ballot,
            form,
            p,
        );
        words[FORKED_AT] = forked.low;
        words[FORKED_AT + 1] = forked.high;
    }

    // Place j is put into the set of key k of the ids.
    pub fn file_id(&mut self, k: usize, j: usize)
        requires { (j < max_held) × (k < id_keys) }
        ensures { IdFiled (word_notes self.old.words) (word_notes self.new.words) k j × (self.new.octets ≡ self.old.octets) }
    {
        let words = &mut self.words;
        put_place(&mut words[ID_LOW_AT..KEY_LOW_AT], ID_KEYS, k, j);
    }

    // The name of place i.
    pub fn put_name(&mut self, i: usize, name: u8)
        requires { i < name_slots }
        ensures { (byte_notes self.new.octets ≡ with_name (byte_notes self.old.octets) i name) × (self.new.words ≡ self.old.words) }
    {
        self.octets[i] = name;
    }
}
