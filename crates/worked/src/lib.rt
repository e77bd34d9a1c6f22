// The examples that were worked by hand, as one statement over the definitions that the contracts cite.
#![tactic(auto)]

ghost use Rattle.worked.specs.Worked.{Worked};

/// Every example comes out as it was worked.
pub fn worked_examples_hold()
    ensures { Worked }
{}
