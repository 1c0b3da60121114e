//! What is proved of every run.
ghost use Rattle.usage.specs.Balance.{Balanced};

/// After every run each octet that was counted under a key of the ledger is deducted, untaken, pending or discarded, and
/// is so once; deducted is what the reports up to the last one taken hold, each once; and what is at its threshold is
/// noticed before the counters are full.
pub fn balanced()
    ensures { Balanced }
{}
