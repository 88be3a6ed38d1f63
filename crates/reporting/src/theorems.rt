ghost use Rattle.reporting.specs.Reporting.{TwoRulesReported};

// Of the table of 76 bytes there is one report that meets the promise, the one that is expected.
fn two_rules()
    ensures { TwoRulesReported }
{}
