ghost use Rattle.std.specs.Prelude.{◌≡◌, ℕ, false, List, ◌∷◌, ◌++◌};
ghost use Rattle.judging.specs.Literals.{LiteralsAre, as_literals};
ghost use Rattle.judging.specs.declared.literals.Literal.{Literal};
ghost use Rattle.semantics.specs.Markings.{at};
ghost use Rattle.semantics.specs.declared.Mark.{Mark};
ghost use Rattle.table.specs.Tables.{contents_of, nth_rule};
ghost use Rattle.table.specs.View.{Covers};

use marking::Marking;
use semantics::Mark;
use table::table::{Run, Table};

// A statement that should be in, or out. It has the fields of a finding, but a finding says what the movement is like, and
// a literal what a rule asks for. One type is no plainer: a rule's literals would have to be called found.
#[derive(Clone, Copy, PartialEq, Eq, Debug)]
pub struct Literal {
    pub statement: u16,
    pub present: bool,
}

// What a marking says of some literals: all are as they should be; all but one, which is open; none is against its mark and
// two or more are open; or one is against its mark. A literal that is listed twice counts once.
#[derive(Clone, Copy, PartialEq, Eq, Debug)]
pub enum Literals {
    Met,
    OneOpen(Literal),
    SeveralOpen,
    Against,
}

impl Literals {
    // With an open literal more.
    fn and_open(self, literal: Literal) -> Literals
        ensures { (m : List Mark) (ls : List Literal)
            → Mark.Open ≡ at m literal.statement
            → LiteralsAre m ls self
            → LiteralsAre m (literal ∷ ls) result }
    {
        match self {
            Literals::Met => Literals::OneOpen(literal),
            Literals::OneOpen(other) if other == literal => self,
            Literals::OneOpen(_) | Literals::SeveralOpen => Literals::SeveralOpen,
            Literals::Against => Literals::Against,
        }
    }

    // With a literal more, whose statement has this mark.
    pub fn and(self, literal: Literal, mark: Mark) -> Literals
        ensures { (m : List Mark) (ls : List Literal)
            → mark ≡ at m literal.statement
            → LiteralsAre m ls self
            → LiteralsAre m (literal ∷ ls) result }
    {
        if mark == Mark::Open {
            self.and_open(literal)
        } else if mark == Mark::from(literal.present) {
            self
        } else {
            Literals::Against
        }
    }
}

// What a marking says of the literals of a run, together with those judged before.
pub fn judge_literals(
    table: &Table,
    marking: &Marking,
    run: Run,
    present: bool,
    before: Literals,
) -> Literals
    ensures { (qs : List ℕ) (ls : List Literal)
        → Covers (contents_of table.now).literals qs run
        → LiteralsAre marking.now ls before
        → LiteralsAre marking.now (as_literals present qs ++ ls) result }
{
    let mut all = before;
    for k in (run.first..run.end).rev() {
        let statement = table.literal(k);
        all = all.and(Literal { statement, present }, marking.mark(statement));
    }
    all
}

// What a marking says of the head of rule i, that its statements be out. It asks no family, and so no rulebook.
pub fn judge_head(table: &Table, marking: &Marking, i: usize) -> Literals
    ensures { LiteralsAre marking.now (as_literals false (nth_rule table.now i).head) result }
{
    judge_literals(table, marking, table.rule(i).head, false, Literals::Met)
}
