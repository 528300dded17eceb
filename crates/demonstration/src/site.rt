// The parties, and the letters between them.
ghost use Rattle.std.specs.Prelude.{◌≡◌, ◌<◌, ◌↔◌, ◌∷◌, ◌++◌, [], IsOk, OnOk, IfErr, OnErr, length};

use crate::failure::Failure;
use crate::letter::Letter;
use crate::party::Party;
use arrayvec::ArrayVec;
use std::io;

// A script names a letter by four bits.
const MAX_LETTERS: usize = 16;

// The liar is no party: the program writes what it says.
#[derive(Drop)]
pub struct Site {
    // Controllers 0, 1 and 2, and growers 0, 1 and 2.
    parties: [Party; 6],
    letters: ArrayVec<Letter, MAX_LETTERS>,
}

impl Site {
    // The site before anything is delivered. Letters 0 and 1 are the proposals. Letters 2 and 3 are the equivocation: two different 1bs of
    // controller 3, both with no previous message. Letter 4 is its 2a on the second.
    pub fn new() -> Result<Site, Failure> {
        let first = Letter::proposal(0, 5, 70)?;
        let second = Letter::proposal(1, 6, 40)?;
        let answer = first.forged();
        let other_answer = second.forged();
        let vote = other_answer.forged();
        let mut site = Site {
            parties: [
                Party::controller(0)?,
                Party::controller(1)?,
                Party::controller(2)?,
                Party::grower(0)?,
                Party::grower(1)?,
                Party::grower(2)?,
            ],
            letters: ArrayVec::new(),
        };
        site.post(first)?;
        site.post(second)?;
        site.post(answer)?;
        site.post(other_answer)?;
        site.post(vote)?;
        Ok(site)
    }

    // Makes the deliveries of a script, each byte of which is 16 times the party, and the letter. Each reply is one letter more, from 5 on.
    pub fn play(&mut self, rt: &impl Print, script: &[u8]) -> io::Result<()> {
        for order in script {
            self.carry(rt, usize::from(order / 16), usize::from(order % 16))?;
        }
        Ok(())
    }

    // Carries a letter to a party.
    fn carry(&mut self, rt: &impl Print, to: usize, which: usize) -> io::Result<()> {
        let letter = self.letters.get(which).ok_or(Failure::NoLetter)?;
        let party = self.parties.get_mut(to).ok_or(Failure::NoParty)?;
        let response = party.deliver(letter);
        println!(rt; "{} to {}: {letter}: {response}", letter.sender, party.name)?;
        if let Ok(Some(reply)) = response.0 {
            self.post(reply)?;
        }
        Ok(())
    }

    // One letter more. A full site stays as it is: no script could name a seventeenth.
    fn post(&mut self, letter: Letter) -> Result<(), Failure>
        ensures variant { IsOk result ↔ (length self.old.letters.items < MAX_LETTERS) }
        ensures ok { OnOk result (self.new.letters.items ≡ self.old.letters.items ++ letter ∷ []) }
        ensures full { IfErr result (λ e. e ≡ Failure.NoRoom) }
        ensures err { OnErr result (self.new ≡ self.old) }
        ensures parties { self.new.parties ≡ self.old.parties }
    {
        self.letters.try_push(letter).map_err(|_| Failure::NoRoom)
    }

    // The vent page of each grower.
    pub fn tell_pages(&self, rt: &impl Print) -> io::Result<()> {
        for party in &self.parties {
            if let Some(page) = party.page() {
                rt.println(page)?;
            }
        }
        Ok(())
    }
}
