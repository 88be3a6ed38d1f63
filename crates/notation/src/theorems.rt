ghost use Rattle.notation.specs.Examples.{Examples};
ghost use Rattle.notation.specs.MarkExamples.{MarkExamples};

// Some rules, a table and a refusal have the text that is expected of them.
fn examples()
    ensures { Examples }
{}

// And so have some marks.
fn mark_examples()
    ensures { MarkExamples }
{}
