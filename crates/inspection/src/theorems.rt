ghost use Rattle.inspection.specs.Example.{TwoRulesInspected};

// Of the table of 76 bytes there is one text that meets the promise, the one that is expected.
fn two_rules()
    ensures { TwoRulesInspected }
{}
