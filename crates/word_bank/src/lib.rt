//! A counter bank over thirty-two words of 64 bits that the caller lends. It knows no other bank.

#![tactic(auto)]

ghost use Rattle.std.specs.Prelude.{◌≡◌, ℕ, ◌+◌, ◌<◌, ◌≤◌, length, replicate, slice_index};
ghost use Rattle.std.proofs.Common.{lit≤};
ghost use Rattle.bank.specs.Meaning.{empty};
ghost use Rattle.bank.specs.Stores.{Accepted, checked};
ghost use Rattle.word_bank.specs.Words.{counts_of, meant};
ghost use Rattle.word_bank.specs.Owed.{sixteen_counts, within_ceiling};

use bank::{Bank, Counts, UPLINK, slot, store};
use fault::{Code, Fault};

/// A bank that keeps each count in a word of its own, the uplink of place 0 first, then its downlink and so on.
#[derive(Drop)]
pub struct WordBank<'a> {
    words: &'a mut [u64; 32],
    // The length of the array: its type does not tell an answer, where the array stands behind a field.
    ghost all: { length words.now ≡ 32 },
    // No word is above the ceiling.
    ghost low: { (slot : ℕ) → slice_index words.now slot ≤ 1099511627775 },
}

impl<'a> WordBank<'a> {
    /// The first check of a store: code 5 unless it has thirty-two words.
    pub fn check(words: &[u64]) -> Result<(), Fault>
        ensures { result ≡ checked 32 (length words.now) }
    {
        store::check::<u64, 32>(words)
    }

    /// A new bank over a store of any length. It is refused exactly as `check` refuses the store.
    pub fn over(words: &'a mut [u64]) -> Result<WordBank<'a>, Fault>
        ensures { Accepted 32 (length words.old) (λ b. (b.words.now ≡ replicate 32 0) × (meant b.words.now ≡ empty) × (b.words.ghost_name ≡ words.entry.ghost_name)) result }
    {
        Ok(WordBank::new(store::array(words)?))
    }

    /// A new bank: every word is cleared.
    #[tactic(auto, using(crate::proofs::Writes::cleared))]
    pub fn new(words: &'a mut [u64; 32]) -> WordBank<'a>
        ensures cleared { result.words.now ≡ replicate 32 0 }
        ensures zero { meant result.words.now ≡ empty }
        ensures lent { result.words.ghost_name ≡ words.entry.ghost_name }
    {
        words.fill(0);
        WordBank { words }
    }
}

// What two words count, an uplink and the downlink behind it.
fn counts(words: &[u64; 32], slot: usize) -> Counts
    requires there { slot + 1 < 32 }
    requires low { (slot : ℕ) → slice_index words.now slot ≤ 1099511627775 }
    ensures { result ≡ counts_of words.now slot }
{
    Counts {
        uplink: words[slot],
        downlink: words[slot + 1],
    }
}

impl<'a> Bank for WordBank<'a> {
    const CEILING: u64 = 1_099_511_627_775;

    ghost ceiling = { 1099511627775 };

    ghost counts = { λ b. meant b.words.now };

    fn top() -> u64
        ensures { result ≡ 1099511627775 }
    {
        Self::CEILING
    }

    #[tactic(auto, using(bank::proofs::Steps::count_found, crate::proofs::Writes::past, crate::proofs::Writes::raises))]
    fn add(&mut self, place: usize, direction: u64, octets: u64) -> Result<(), Fault> {
        let slot = slot(place, direction)?;
        if octets > Self::CEILING - self.words[slot] {
            return Err(Fault::call(Code::Ceiling, 0));
        }
        self.words[slot] += octets;
        Ok(())
    }

    #[tactic(auto, using(bank::proofs::Places::at_places, crate::proofs::Writes::clears))]
    fn take_out(&mut self, place: usize) -> Result<Counts, Fault> {
        let slot = slot(place, UPLINK)?;
        let taken = counts(self.words, slot);
        self.words[slot] = 0;
        self.words[slot + 1] = 0;
        Ok(taken)
    }

    #[tactic(auto, using(bank::proofs::Steps::read_finds))]
    fn read(&self, place: usize) -> Result<Counts, Fault> {
        let slot = slot(place, UPLINK)?;
        Ok(counts(self.words, slot))
    }

    ghost least = { lit≤ tt };

    ghost most = { lit≤ tt };

    ghost sixteen = { λ b. sixteen_counts b.words.now };

    ghost within = { λ b. within_ceiling b.words.now };
}
