// Theorems that the contracts of other crates rest on, each the contract of a function that does nothing.
#![tactic(auto)]

ghost use Rattle.figures.specs.Figures.{Figures};
ghost use Rattle.figures.specs.Rounding.{RoundIsNearest};

// The table of worked figures, computed from the definitions.
pub fn figures_stand()
    ensures { Figures }
{}

// IEEE 754 operations end in `round`: it is 'nearest, ties to even' in plain words.
pub fn rounding_is_nearest()
    ensures { RoundIsNearest }
{}
