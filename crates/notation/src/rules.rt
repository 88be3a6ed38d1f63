ghost use Rattle.notation.specs.Pieces.{aggregate_piece, body_run, literal_piece, member_piece, places, premise_pieces};
ghost use Rattle.notation.specs.Text.{joined, rule_text, sign_text};
ghost use Rattle.std.specs.Fmt.{signed_decimal};
ghost use Rattle.std.specs.Prelude.{◌≡◌, ◌++◌, IfOk, Some, codes, if◌then◌else◌, string_bytes};
ghost use Rattle.table.specs.Tables.{contents_of, nth_rule};

use super::pieces::{Joined, Pieces, is_empty, sign_between};
use super::words::Kind;
use std::alloc::{AllocError, Global};
use std::fmt;
use table::table::{RuleView, Run, Table};

// A statement of a head or a body.
#[derive(Clone, Copy)]
struct Literal<'a> {
    name: &'a str,
    negated: bool,
}

impl fmt::Display for Literal<'_> {
    ghost output = { λ l. Some (if l.negated then codes "not " ++ l.name.now else l.name.now) };

    fn fmt<W: fmt::Write>(&self, f: &mut fmt::Formatter<W>) -> fmt::Result {
        if self.negated {
            f.write_str("not ")?;
        }
        f.write_str(self.name)
    }
}

// Statements, by the places of the literals; from one place on they are negated.
#[derive(Clone, Copy)]
struct Literals<'a> {
    table: Table<'a>,
    negated: usize,
}

impl<'a> Pieces for Literals<'a> {
    type Piece = Literal<'a>;

    ghost text = { λ s. literal_piece (contents_of s.table) s.negated };

    fn piece(&self, place: usize) -> Literal<'a> {
        Literal {
            name: self.table.name(self.table.literal(place)),
            negated: place >= self.negated,
        }
    }
}

// A statement of an aggregate with its weight.
#[derive(Clone, Copy)]
pub(crate) struct Weighed<'a> {
    pub name: &'a str,
    pub weight: i32,
}

impl fmt::Display for Weighed<'_> {
    ghost output = { λ m. Some (m.name.now ++ (codes ":" ++ signed_decimal m.weight)) };

    fn fmt<W: fmt::Write>(&self, f: &mut fmt::Formatter<W>) -> fmt::Result {
        let Weighed { name, weight } = *self;
        write!(f, "{name}:{weight}")
    }
}

// Members of sets, by their places.
#[derive(Clone, Copy)]
struct Members<'a>(Table<'a>);

impl<'a> Pieces for Members<'a> {
    type Piece = Weighed<'a>;

    ghost text = { λ s. member_piece (contents_of s.0) };

    fn piece(&self, place: usize) -> Weighed<'a> {
        let member = self.0.member(place);
        Weighed {
            name: self.0.name(member.statement),
            weight: member.weight,
        }
    }
}

// The aggregate at a place of the table.
#[derive(Clone, Copy)]
struct Aggregate<'a> {
    table: Table<'a>,
    place: usize,
}

impl fmt::Display for Aggregate<'_> {
    ghost output = { λ a. Some (aggregate_piece (contents_of a.table) a.place) };

    fn fmt<W: fmt::Write>(&self, f: &mut fmt::Formatter<W>) -> fmt::Result {
        let aggregate = self.table.aggregate(self.place);
        let (relation, bound) = (aggregate.relation, aggregate.bound);
        let kind = Kind(aggregate.kind);
        let members = Joined {
            separator: ", ",
            pieces: Members(self.table),
            run: aggregate.members,
        };
        write!(f, "{kind}{{{members}}} {relation} {bound}")
    }
}

// Aggregates, by their places.
#[derive(Clone, Copy)]
struct Aggregates<'a>(Table<'a>);

impl<'a> Pieces for Aggregates<'a> {
    type Piece = Aggregate<'a>;

    ghost text = { λ s. aggregate_piece (contents_of s.0) };

    fn piece(&self, place: usize) -> Aggregate<'a> {
        Aggregate {
            table: self.0,
            place,
        }
    }
}

// The places of the positive and the negative statements, which are adjacent.
fn body(rule: RuleView) -> Run
    ensures { result ≡ body_run rule }
{
    Run {
        first: rule.positive.first,
        end: rule.negative.end,
    }
}

fn sign(rule: RuleView) -> &'static str
    ensures { result.now ≡ sign_text (places rule.head) (places (body_run rule) ++ places rule.aggregates) }
{
    if is_empty(rule.head) {
        return ":- ";
    }
    if is_empty(body(rule)) && is_empty(rule.aggregates) {
        ""
    } else {
        " :- "
    }
}

// The positive and the negative statements of a rule, then its aggregates.
#[derive(Clone, Copy)]
struct Premises<'a> {
    table: Table<'a>,
    rule: RuleView,
}

impl fmt::Display for Premises<'_> {
    ghost output = { λ p. Some (joined (codes ", ") (premise_pieces (contents_of p.table) p.rule)) };

    fn fmt<W: fmt::Write>(&self, f: &mut fmt::Formatter<W>) -> fmt::Result {
        let body = body(self.rule);
        let literals = Joined {
            separator: ", ",
            pieces: Literals {
                table: self.table,
                negated: self.rule.positive.end,
            },
            run: body,
        };
        let sign = sign_between(", ", body, self.rule.aggregates);
        let aggregates = Joined {
            separator: ", ",
            pieces: Aggregates(self.table),
            run: self.rule.aggregates,
        };
        write!(f, "{literals}{sign}{aggregates}")
    }
}

// Rule i of the table; past the last one, a rule with nothing in it.
#[derive(Clone, Copy)]
pub(crate) struct Rule<'a> {
    pub table: Table<'a>,
    pub i: usize,
}

impl fmt::Display for Rule<'_> {
    ghost output = { λ r. Some (rule_text (contents_of r.table).names (nth_rule r.table r.i)) };

    fn fmt<W: fmt::Write>(&self, f: &mut fmt::Formatter<W>) -> fmt::Result {
        let rule = self.table.rule(self.i);
        let head = Joined {
            separator: " | ",
            pieces: Literals {
                table: self.table,
                negated: rule.head.end,
            },
            run: rule.head,
        };
        let sign = sign(rule);
        let premises = Premises {
            table: self.table,
            rule,
        };
        write!(f, "{head}{sign}{premises}.")
    }
}

// Rule i of the table; past the last one, a rule with nothing in it.
pub fn rule_text(heap: Global, table: &Table, i: usize) -> Result<String, AllocError>
    ensures { IfOk result (λ s. string_bytes s ≡ rule_text (contents_of table.now).names (nth_rule table.now i)) }
{
    let rule = Rule { table: *table, i };
    rule.to_string(heap)
}
