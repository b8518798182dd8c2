//! The worked examples of the rules.
ghost use Rattle.rules.specs.Worked.{WorkedExamples};

/// Promises that each worked example holds, of the definitions that say what a leveller does.
pub fn worked_examples()
    ensures { WorkedExamples }
{}
