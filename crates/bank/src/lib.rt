//! A counter bank: sixteen places, each with an uplink and a downlink count of octets, under a ceiling that each bank
//! names. The trait says what every bank means and promises; it knows no bank.

#![tactic(auto)]

ghost use Rattle.std.specs.Prelude.{◌≡◌, ℕ, ◌≤◌, List, length};
ghost use Rattle.bank.specs.declared.counts.Counts.{Counts};
ghost use Rattle.bank.specs.Calls.{added, counts_at, taken_out};
ghost use Rattle.bank.specs.Meaning.{Within};

use fault::Fault;

mod counts;
mod slots;
pub mod store;

pub use counts::Counts;
pub use slots::{DOWNLINK, Direction, UPLINK, slot};

/// A bank of counters.
///
/// Its meaning is a list of sixteen `Counts`. The calls are settled by what they do to that list, for every input.
pub trait Bank {
    /// What no count may pass: a number from 65,535 to 1,099,511,627,775.
    const CEILING: u64;

    // The value of the constant, for clauses; `top` ties the two.
    ghost ceiling: { ℕ };

    // The meaning: the counts of place 0, of place 1 and so on.
    ghost counts: { Self → List Counts };

    /// The ceiling, as code over any bank reads it.
    fn top() -> u64
        ensures { result ≡ ceiling };

    /// Raises one count: of a place 0 to 15 the uplink (direction 0) or the downlink (direction 1). Any other place or
    /// direction is refused with code 5; then a sum that would pass the ceiling, and no other, with code 19.
    fn add(&mut self, place: usize, direction: u64, octets: u64) -> Result<(), Fault>
        ensures leaves { counts self.new ≡ (added ceiling (counts self.old) place direction octets).0 }
        ensures answers { result ≡ (added ceiling (counts self.old) place direction octets).1 };

    /// Answers both counts of a place, and makes both 0. A place above 15 is refused with code 5.
    fn take_out(&mut self, place: usize) -> Result<Counts, Fault>
        ensures leaves { counts self.new ≡ (taken_out (counts self.old) place).0 }
        ensures answers { result ≡ (taken_out (counts self.old) place).1 };

    /// Answers both counts of a place. A place above 15 is refused with code 5.
    fn read(&self, place: usize) -> Result<Counts, Fault>
        ensures { result ≡ counts_at (counts self.now) place };

    // What each bank owes: the bounds of its ceiling, and in every state sixteen places and no count above the ceiling.
    ghost least: { 65535 ≤ ceiling };

    ghost most: { ceiling ≤ 1099511627775 };

    ghost sixteen: { (bank : Self) → length (counts bank) ≡ 16 };

    ghost within: { (bank : Self) → Within ceiling (counts bank) };
}
