//! A counter bank over the counters of a user plane, which only count up, modulo 4,294,967,296, and over a mark beside
//! each. The caller lends both as sixty-four words of 32 bits. It knows no other bank.

#![tactic(auto)]

ghost use Rattle.std.specs.Prelude.{◌≡◌, ◌+◌, ◌*◌, ◌<◌, ◌++◌, length, is_ok, if◌then◌else◌, slice_index};
ghost use Rattle.std.proofs.Common.{lit≤};
ghost use Rattle.bank.specs.Calls.{added, taken_out};
ghost use Rattle.bank.specs.Meaning.{empty};
ghost use Rattle.bank.specs.Stores.{Accepted, checked};
ghost use Rattle.rolling_bank.specs.Rolling.{advanced, count_at, counters, counts_of, marked, meant};
ghost use Rattle.rolling_bank.specs.Owed.{sixteen_counts, within_ceiling};

use bank::{Bank, Counts, UPLINK, slot, store};
use fault::{Code, Fault};

/// A bank whose counts are how far each counter has gone past its mark. First come the thirty-two counters, the uplink of
/// place 0, its downlink and so on; then their marks.
#[derive(Drop)]
pub struct RollingBank<'a> {
    words: &'a mut [u32; 64],
    // The length of the array: its type does not tell an answer, where the array stands behind a field.
    ghost all: { length words.now ≡ 64 },
}

impl<'a> RollingBank<'a> {
    /// The first check of a store: code 5 unless it has sixty-four words.
    pub fn check(words: &[u32]) -> Result<(), Fault>
        ensures { result ≡ checked 64 (length words.now) }
    {
        store::check::<u32, 64>(words)
    }

    /// A new bank over a store of any length. It is refused exactly as `check` refuses the store.
    pub fn over(words: &'a mut [u32]) -> Result<RollingBank<'a>, Fault>
        ensures { Accepted 64 (length words.old) (λ b. (b.words.now ≡ counters words.old ++ counters words.old) × (meant b.words.now ≡ empty) × (b.words.ghost_name ≡ words.entry.ghost_name)) result }
    {
        Ok(RollingBank::new(store::array(words)?))
    }

    /// A new bank: each mark is set to its counter, and the counters stay.
    #[tactic(auto, using(crate::proofs::Marks::twice_empty))]
    pub fn new(words: &'a mut [u32; 64]) -> RollingBank<'a>
        ensures marked { result.words.now ≡ counters words.old ++ counters words.old }
        ensures zero { meant result.words.now ≡ empty }
        ensures lent { result.words.ghost_name ≡ words.entry.ghost_name }
    {
        let (counters, marks) = words.split_at_mut(32);
        marks.copy_from_slice(counters);
        RollingBank { words }
    }
}

// How far a counter has gone past its mark, which is a number of 32 bits.
fn count(words: &[u32; 64], slot: usize) -> u64
    requires { slot < 32 }
    ensures value { result ≡ count_at words.now slot }
    ensures mark { slice_index words.now (32 + slot) < 4294967296 }
{
    u64::from(words[slot].wrapping_sub(words[32 + slot]))
}

// The counts of two counters, an uplink and the downlink behind it.
fn counts(words: &[u32; 64], slot: usize) -> Counts
    requires { slot + 1 < 32 }
    ensures { result ≡ counts_of words.now slot }
{
    Counts {
        uplink: count(words, slot),
        downlink: count(words, slot + 1),
    }
}

impl<'a> Bank for RollingBank<'a> {
    const CEILING: u64 = 4_294_967_295;

    ghost ceiling = { 4294967295 };

    ghost counts = { λ b. meant b.words.now };

    fn top() -> u64
        ensures { result ≡ 4294967295 }
    {
        Self::CEILING
    }

    // One counter goes on, modulo 2^32; no mark moves.
    #[tactic(auto, using(bank::proofs::Steps::add_past, bank::proofs::Steps::count_found, crate::proofs::Writes::raises))]
    fn add(&mut self, place: usize, direction: u64, octets: u64) -> Result<(), Fault>
        ensures leaves { meant self.new.words.now ≡ (added 4294967295 (meant self.old.words.now) place direction octets).0 }
        ensures answers { result ≡ (added 4294967295 (meant self.old.words.now) place direction octets).1 }
        ensures moves { self.new.words.now ≡ (if is_ok result then advanced self.old.words.now (2 * place + direction) octets else self.old.words.now) }
        ensures lent { self.new.words.ghost_name ≡ self.old.words.ghost_name }
    {
        let slot = slot(place, direction)?;
        let had = count(self.words, slot);
        if octets > Self::CEILING - had {
            return Err(Fault::call(Code::Ceiling, 0));
        }
        self.words[slot] = self.words[slot].wrapping_add(octets as u32);
        Ok(())
    }

    // Two marks are moved to their counters; no counter moves.
    #[tactic(auto, using(bank::proofs::Places::at_places, crate::proofs::Writes::moved, crate::proofs::Writes::counters_stay, crate::proofs::Writes::clears))]
    fn take_out(&mut self, place: usize) -> Result<Counts, Fault>
        ensures leaves { meant self.new.words.now ≡ (taken_out (meant self.old.words.now) place).0 }
        ensures answers { result ≡ (taken_out (meant self.old.words.now) place).1 }
        ensures marks { self.new.words.now ≡ (if is_ok result then marked self.old.words.now (2 * place) else self.old.words.now) }
        ensures counters { counters self.new.words.now ≡ counters self.old.words.now }
        ensures lent { self.new.words.ghost_name ≡ self.old.words.ghost_name }
    {
        let slot = slot(place, UPLINK)?;
        let taken = counts(self.words, slot);
        self.words[32 + slot] = self.words[slot];
        self.words[33 + slot] = self.words[slot + 1];
        Ok(taken)
    }

    #[tactic(auto, using(bank::proofs::Steps::read_finds))]
    fn read(&self, place: usize) -> Result<Counts, Fault> {
        let slot = slot(place, UPLINK)?;
        Ok(counts(self.words, slot))
    }

    ghost least = { lit≤ tt };

    ghost most = { lit≤ tt };

    ghost sixteen = { λ b. sixteen_counts b.words.now };

    ghost within = { λ b. within_ceiling b.words.now };
}
