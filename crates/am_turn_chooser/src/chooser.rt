ghost use Rattle.std.specs.Prelude.{◌≡◌, IfOk};
ghost use Rattle.am_shared_journal_defs.specs.Choices.{choice_by, words_by_seed, choice_of, luck_after};

use am_base::NoMemory;
use am_shared_journal_defs::choice::Choice;
use rand_pcg::Lcg64Xsh32;
use rand_pcg::rand_core::utils::NextWord;
use std::marker::Model;

/// What a word below 100 chooses where a letter is ahead.
fn turn_by(loss: u32, repeat: u32, word: u32, ahead: u32, last: Option<u32>) -> Choice
    ensures { result ≡ choice_by loss repeat word ahead last }
{
    if word < loss {
        return Choice::Lose(ahead);
    }
    match last {
        Some(number) if word - loss < repeat => Choice::Repeat(number),
        _ => Choice::Hear(ahead),
    }
}

/// Chooses what nodes do with the letters for them, by drawn words (docs/PROTOCOL.md, "The chooser"). Contracts see it as
/// its words from here on, and how many letters of a hundred it loses and how many more it repeats.
#[derive(Drop)]
pub struct Chooser {
    words: Lcg64Xsh32,
    loss: u32,
    repeat: u32,
}

impl Model for Chooser {
    ghost use Rattle.am_shared_journal_defs.specs.Choices.{Luck};

    ghost Value = { Luck };

    ghost view = { λ c. record { words = c.words; loss = c.loss; repeat = c.repeat } };
}

impl Chooser {
    /// A chooser that draws the words of a seed and a stream, loses so many letters of a hundred and repeats so many more.
    pub fn new(seed: u64, stream: u64, loss: u32, repeat: u32) -> Chooser
        ensures { result ≡ record { words = words_by_seed seed stream; loss = loss; repeat = repeat } }
    {
        Chooser {
            words: Lcg64Xsh32::new(seed, stream),
            loss,
            repeat,
        }
    }

    /// The same chooser.
    pub fn try_copy(&self) -> Result<Chooser, NoMemory>
        ensures { IfOk result (λ chooser. chooser ≡ self.now) }
    {
        Ok(Chooser {
            words: self.words.clone()?,
            loss: self.loss,
            repeat: self.repeat,
        })
    }

    /// What a node does, where the first of these letters is the least ahead of it and the second the last that it heard.
    /// One word is drawn where a letter is ahead, and none for a Tick.
    pub fn choose(&mut self, ahead: Option<u32>, last: Option<u32>) -> Choice
        ensures choice { result ≡ choice_of self.old ahead last }
        ensures drawn { self.new ≡ luck_after self.old ahead }
    {
        match ahead {
            Some(number) => {
                let word = self.words.next_word() % 100;
                turn_by(self.loss, self.repeat, word, number, last)
            }
            None => Choice::Tick,
        }
    }
}
