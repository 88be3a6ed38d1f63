ghost use Rattle.table.specs.TwoRules.{TwoRules};

// A table of 76 bytes, worked out by hand, is accepted and stands for the rules and names that it should.
#[tactic(auto, using(crate::proofs::Example::example))]
fn two_rules()
    ensures { TwoRules }
{}
