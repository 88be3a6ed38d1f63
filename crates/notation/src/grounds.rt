ghost use Rattle.notation.specs.Grounds.{MembersSuffice, grounds_text, true_by};
ghost use Rattle.notation.specs.Pieces.{present_pieces, true_pieces};
ghost use Rattle.notation.specs.Text.{joined};
ghost use Rattle.semantics.specs.FullMarkings.{row_of};
ghost use Rattle.semantics.specs.Markings.{at};
ghost use Rattle.semantics.specs.declared.Mark.TheVariants.{In};
ghost use Rattle.std.specs.Prelude.{◌≡◌, ◌↔◌, IfOk, IsTrue, Some, codes, string_bytes};
ghost use Rattle.table.specs.Tables.{contents_of, nth_aggregate, nth_rule};

use super::rules::{Rule, Weighed};
use super::words::Kind;
use marking::Marking;
use semantics::Mark;
use std::alloc::{AllocError, Global};
use std::fmt;
use table::table::{Run, Table};

// The members of a run that are in.
#[derive(Clone, Copy)]
struct Present<'a> {
    table: Table<'a>,
    marks: &'a Marking,
    run: Run,
}

impl Present<'_> {
    // Whether a statement is in.
    fn has(&self, statement: u16) -> bool
        ensures { IsTrue result ↔ (at self.now.marks.now statement ≡ In) }
    {
        self.marks.mark(statement) == Mark::In
    }
}

impl fmt::Display for Present<'_> {
    ghost output = { λ p.
        Some (joined (codes ", ") (present_pieces (contents_of p.table) p.marks.now p.run.first p.run.end)) };

    fn fmt<W: fmt::Write>(&self, f: &mut fmt::Formatter<W>) -> fmt::Result {
        let mut separator = "";
        for place in self.run.first..self.run.end {
            let member = self.table.member(place);
            if !self.has(member.statement) {
                continue;
            }
            let (name, weight) = (self.table.name(member.statement), member.weight);
            write!(f, "{separator}{}", Weighed { name, weight })?;
            separator = ", ";
        }
        Ok(())
    }
}

// The aggregate at a place of the table with its members that are in, in a line.
#[derive(Clone, Copy)]
struct TrueBy<'a> {
    table: Table<'a>,
    marks: &'a Marking,
    place: usize,
}

impl fmt::Display for TrueBy<'_> {
    ghost output = { λ t.
        Some (true_by (contents_of t.table).names (row_of t.marks.now) (nth_aggregate t.table t.place)) };

    fn fmt<W: fmt::Write>(&self, f: &mut fmt::Formatter<W>) -> fmt::Result {
        let TrueBy {
            table,
            marks,
            place,
        } = *self;
        let aggregate = table.aggregate(place);
        let (relation, bound) = (aggregate.relation, aggregate.bound);
        let kind = Kind(aggregate.kind);
        let run = aggregate.members;
        let members = Present { table, marks, run };
        writeln!(f, "  true by {kind}{{{members}}} {relation} {bound}")
    }
}

// A line for each aggregate of a run.
#[derive(Clone, Copy)]
struct TrueLines<'a> {
    table: Table<'a>,
    marks: &'a Marking,
    run: Run,
}

impl fmt::Display for TrueLines<'_> {
    ghost output = { λ t. Some (true_pieces (contents_of t.table) t.marks.now t.run.first t.run.end) };

    fn fmt<W: fmt::Write>(&self, f: &mut fmt::Formatter<W>) -> fmt::Result {
        let TrueLines { table, marks, run } = *self;
        for place in run.first..run.end {
            write!(
                f,
                "{}",
                TrueBy {
                    table,
                    marks,
                    place
                }
            )?;
        }
        Ok(())
    }
}

// A rule with what it rests on.
#[derive(Clone, Copy)]
struct Grounds<'a> {
    table: Table<'a>,
    marks: &'a Marking,
    i: usize,
}

impl fmt::Display for Grounds<'_> {
    ghost output = { λ g.
        Some (grounds_text (contents_of g.table).names (row_of g.marks.now) (nth_rule g.table g.i)) };

    fn fmt<W: fmt::Write>(&self, f: &mut fmt::Formatter<W>) -> fmt::Result {
        let Grounds { table, marks, i } = *self;
        let rule = Rule { table, i };
        let run = table.rule(i).aggregates;
        let lines = TrueLines { table, marks, run };
        write!(f, "  {rule}\n{lines}")
    }
}

// What rule i rests on in the row of these marks: the rule in a line, and each of its aggregates, in a line, with the
// members that are in. Such an aggregate is true in the row where the rule's own is.
pub fn grounds_text(
    heap: Global,
    table: &Table,
    i: usize,
    marks: &Marking,
) -> Result<String, AllocError>
    ensures text { IfOk result (λ s. string_bytes s
        ≡ grounds_text (contents_of table.now).names (row_of marks.now) (nth_rule table.now i)) }
    ensures same { MembersSuffice (row_of marks.now) }
{
    let table = *table;
    Grounds { table, marks, i }.to_string(heap)
}
