//! One function over any bank, proved once from what every bank means, and run on both.

#![tactic(auto)]

ghost use Rattle.std.specs.Prelude.{◌≡◌};
ghost use Rattle.either_bank.specs.Passed.{passed};

use bank::{Bank, Counts, DOWNLINK, UPLINK};
use fault::{Code, Fault};

/// Adds to both counts of a place, or to neither, and then takes both out.
pub fn pass<B: Bank>(bank: &mut B, place: usize, more: Counts) -> Result<Counts, Fault>
    ensures leaves { B.counts bank.new ≡ (passed B.ceiling (B.counts bank.old) place more).0 }
    ensures answers { result ≡ (passed B.ceiling (B.counts bank.old) place more).1 }
{
    let had = bank.read(place)?;
    let top = B::top();
    if more.uplink > top - had.uplink || more.downlink > top - had.downlink {
        return Err(Fault::call(Code::Ceiling, 0));
    }
    bank.add(place, UPLINK, more.uplink)?;
    bank.add(place, DOWNLINK, more.downlink)?;
    bank.take_out(place)
}

#[cfg(test)]
mod tests;
