//! Worked figures: what the rules come to in numbers, proved of their definitions.

#![tactic(auto)]

ghost use Rattle.worked.specs.Figures.{Shown, figures};
ghost use Rattle.std.specs.List.{AllByRecursion};

/// Each figure is what the definitions come to.
pub fn figures_hold()
    ensures { AllByRecursion Shown figures }
{}
