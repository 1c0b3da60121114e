ghost use Rattle.std.specs.Prelude.{◌≡◌, ℕ, ◌<◌, List, true, length, Ok};
ghost use Rattle.trip.specs.Back.{answer_at, command_at, report_at};
ghost use Rattle.trip.specs.Laws.GrantsAgain.{answer_again};
ghost use Rattle.trip.specs.Laws.Grants.{answer_back};
ghost use Rattle.trip.specs.Laws.OrdersAgain.{command_again};
ghost use Rattle.trip.specs.Laws.Orders.{command_back};
ghost use Rattle.trip.specs.Laws.ReportsAgain.{report_again};
ghost use Rattle.trip.specs.Laws.Reports.{report_back};
ghost use Rattle.trip.specs.Laws.Shorts.{answer_short, command_short, report_short};
ghost use Rattle.trip.specs.Own.{Octets, OwnAnswered, OwnOrdered, OwnReported};
ghost use Rattle.std.proofs.Common.{refl};

use information::{AnswerGroup, CommandGroup, ReportGroup};
use wire::Written;

/// A group that reads back as it was written, and is written again as it was read.
pub trait Trip: Written {
    // the group at the place where it starts, and the writer's own form of its data
    ghost moved: { ℕ → Self → Self };

    ghost Own: { List ℕ → Type 0 };

    ghost key_stays: { (at : ℕ) (v : Self) → Self.keyed (moved at v) ≡ Self.keyed v };

    ghost short: { (v : Self) → Self.sound v ≡ true → length (Self.octets v) < 65536 };

    ghost back: { (at place : ℕ) (v : Self) → Self.sound v ≡ true → Self.reads at (record { place = place; octets = Self.octets v }) ≡ Ok (moved at v) };

    ghost again: { (at place : ℕ) (ds : List ℕ) → Own ds → Octets ds → (v : Self) → Self.reads at (record { place = place; octets = ds }) ≡ Ok v → Self.octets v ≡ ds };
}

impl Trip for ReportGroup {
    ghost moved = { report_at };

    ghost Own = { OwnReported };

    ghost key_stays = { λ at v. refl };

    ghost short = { report_short };

    ghost back = { report_back };

    ghost again = { λ at place ds own ok v e. report_again at place own ok v e };
}

impl Trip for AnswerGroup {
    ghost moved = { answer_at };

    ghost Own = { OwnAnswered };

    ghost key_stays = { λ at v. refl };

    ghost short = { answer_short };

    ghost back = { answer_back };

    ghost again = { λ at place ds own ok v e. answer_again at place own ok v e };
}

impl Trip for CommandGroup {
    ghost moved = { command_at };

    ghost Own = { OwnOrdered };

    ghost key_stays = { λ at v. refl };

    ghost short = { command_short };

    ghost back = { command_back };

    ghost again = { λ at place ds own ok v e. command_again at place own ok v e };
}
