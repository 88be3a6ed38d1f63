ghost use Rattle.solver.specs.Words.{weighing_text};
ghost use Rattle.std.specs.Prelude.{Some};

use std::fmt;

// What is told of a statement over some accounts: there is none, every one has it, none has it, or some only.
#[derive(Clone, Copy, PartialEq, Eq, Debug)]
pub enum Weighing {
    NoAccount,
    InEvery,
    InNone,
    InSome,
}

impl fmt::Display for Weighing {
    ghost output = { λ weighing. Some (weighing_text weighing) };

    fn fmt<W: fmt::Write>(&self, f: &mut fmt::Formatter<W>) -> fmt::Result {
        f.write_str(match self {
            Weighing::NoAccount => "no account",
            Weighing::InEvery => "in every account",
            Weighing::InNone => "in none",
            Weighing::InSome => "in some only",
        })
    }
}
