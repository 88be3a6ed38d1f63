ghost use Rattle.solver.specs.Examples.{SupportExamples};

// In some rows of a small program, statements stand on the rules that are expected.
fn support_examples()
    ensures { SupportExamples }
{}
