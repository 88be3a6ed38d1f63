ghost use Rattle.std.specs.Prelude.{◌≡◌, ◌≤◌, ◌<◌, ◌↔◌, ◌&&◌, ℕ, IfNone, IfSome, IsTrue, if◌then◌else◌, length, map, min, nat_lt, not, replicate, slice_set, true, false};
ghost use Rattle.marking.specs.Marks.{Divides, FirstOpen, first_mark, how_open, is_open, is_out};
ghost use Rattle.marking.specs.Sets.{Meets, contains};
ghost use Rattle.semantics.specs.FullMarkings.{is_in, row_of};
ghost use Rattle.semantics.specs.Markings.{Below, at, found};
ghost use Rattle.semantics.specs.Rows.{how_many};
ghost use Rattle.semantics.specs.Tests.{is_kept};
ghost use Rattle.semantics.specs.declared.Mark.TheVariants.{Open};
ghost use Rattle.std.specs.List.{range_with_len};

use super::set::{MOST, Set};
use semantics::{Finding, Mark};
use std::marker::Model;

// A mark for each statement of a table: a clause sees the list of these marks. Held as the set of those that are in and
// the set of those that are out, so that a question of all marks is a few instructions. The sets have no statement from
// the last on, and none in common, so that the list gives the fields back.
#[derive(Clone, Copy)]
pub struct Marking {
    present: Set,
    absent: Set,
    statements: u16,
}

impl Model for Marking {
    ghost use Rattle.std.specs.Prelude.{List};
    ghost use Rattle.semantics.specs.declared.Mark.{Mark};

    ghost Value = { List Mark };

    ghost use Rattle.marking.specs.Fields.{IsApart, fields, fields_marks_held, marks_held};

    ghost view = { marks_held };

    ghost invariant = { IsApart };

    ghost inverse = { fields };

    ghost inverse_ok = { fields_marks_held };
}

// So many statements, or the format's limit where that is less.
fn size(statements: u16) -> u16
    ensures { result ≡ min statements 128 }
{
    statements.min(MOST)
}

// Whether a mark is in.
fn is_in(mark: Mark) -> bool
    ensures { result ≡ is_in mark }
{
    mark == Mark::In
}

// Whether a mark is out.
fn is_out(mark: Mark) -> bool
    ensures { result ≡ is_out mark }
{
    mark == Mark::Out
}

impl Marking {
    // All statements open; of more than 128 statements, the first 128.
    #[tactic(auto, using(crate::proofs::Made::all_open_held))]
    pub fn all_open(statements: u16) -> Marking
        ensures { result ≡ replicate (min statements 128) Open }
    {
        Marking {
            present: Set::none(),
            absent: Set::none(),
            statements: size(statements),
        }
    }

    // The marking of those that are in and those that are out; of more than 128 statements, the first 128. None where
    // some statement is both in and out.
    pub fn from_sets(statements: u16, present: Set, absent: Set) -> Option<Marking>
        ensures apart { IfSome result (λ m. Divides statements present absent m) }
        ensures meeting { IfNone result (Meets present absent) }
    {
        if present.meets(absent) {
            return None;
        }
        Some(Marking::divided(statements, present, absent))
    }

    // The same of sets that have nothing in common.
    #[tactic(auto, using(crate::specs::Fields::length_held, crate::proofs::Made::in_as, crate::proofs::Made::out_as))]
    fn divided(statements: u16, present: Set, absent: Set) -> Marking
        requires { (q : ℕ) → contains present q ≡ true → contains absent q ≡ false }
        ensures long { length result ≡ min statements 128 }
        ensures inside { (q : ℕ) → q < length result → is_in (at result q) ≡ contains present q }
        ensures outside { (q : ℕ) → q < length result → is_out (at result q) ≡ contains absent q }
    {
        let all = Set::below(statements);
        Marking {
            present: present.common(all),
            absent: absent.common(all),
            statements: size(statements),
        }
    }

    // How many statements there are.
    #[tactic(auto, using(crate::proofs::Held::long_held))]
    pub fn statements(&self) -> u16
        ensures value { result ≡ length self.now }
        ensures few { result ≤ 128 }
    {
        self.statements
    }

    // The statements that are in.
    #[tactic(auto, using(crate::proofs::Held::present_held))]
    pub fn present(&self) -> Set
        ensures { (q : ℕ) → contains result q ≡ is_in (at self.now q) }
    {
        self.present
    }

    // The statements that are out.
    #[tactic(auto, using(crate::proofs::Held::absent_held))]
    pub fn absent(&self) -> Set
        ensures { (q : ℕ) → contains result q ≡ is_out (at self.now q) }
    {
        self.absent
    }

    // The mark of a statement; past the last one, open.
    #[tactic(auto, using(crate::proofs::Held::mark_in, crate::proofs::Held::mark_out, crate::proofs::Held::mark_open))]
    pub fn mark(&self, statement: u16) -> Mark
        ensures { result ≡ at self.now statement }
    {
        if self.present.has(statement) {
            Mark::In
        } else if self.absent.has(statement) {
            Mark::Out
        } else {
            Mark::Open
        }
    }

    // The statements that are open.
    #[tactic(auto, using(crate::proofs::Opens::open_held))]
    pub fn open_statements(&self) -> Set
        ensures { (q : ℕ) → contains result q ≡ (nat_lt q (length self.now) && is_open (at self.now q)) }
    {
        Set::below(self.statements)
            .without(self.present)
            .without(self.absent)
    }

    // How many statements are open.
    #[tactic(auto, using(crate::proofs::Opens::open_counted))]
    pub fn open_count(&self) -> u16
        ensures { result ≡ how_open self.now }
    {
        self.open_statements().count()
    }

    // How many statements are in.
    #[tactic(auto, using(crate::proofs::Held::in_counted))]
    pub fn in_count(&self) -> u16
        ensures { result ≡ how_many (row_of self.now) }
    {
        Set::count(self.present)
    }

    // The first open statement, if one is open.
    #[tactic(auto, using(crate::proofs::Opens::first_open_held))]
    pub fn first_open(&self) -> Option<u16>
        ensures { FirstOpen self.now result }
    {
        self.open_statements().first()
    }

    // Marks a statement; past the last one it does nothing.
    #[tactic(auto, using(crate::proofs::Made::set_held, crate::proofs::Made::past_held))]
    pub fn set(&mut self, statement: u16, mark: Mark)
        ensures { self.new ≡ slice_set self.old statement mark }
    {
        if statement < self.statements {
            *self = Marking {
                present: self.present.put(statement, is_in(mark)),
                absent: self.absent.put(statement, is_out(mark)),
                statements: self.statements,
            };
        }
    }

    // The marking with one statement marked so; past the last one it is as it was.
    pub fn with(self, statement: u16, mark: Mark) -> Marking
        ensures { result ≡ slice_set self statement mark }
    {
        let mut with = self;
        with.set(statement, mark);
        with
    }

    // The marks of these statements alone: the others are open.
    #[tactic(auto, using(crate::proofs::Made::same_long, crate::proofs::Made::within_held))]
    pub fn within(&self, statements: Set) -> Marking
        ensures long { length result ≡ length self.now }
        ensures marks { (q : ℕ) → at result q ≡ (if contains statements q then at self.now q else Open) }
    {
        Marking {
            present: self.present.common(statements),
            absent: self.absent.common(statements),
            statements: self.statements,
        }
    }

    // The marks of both: of two marks of one statement, this marking's.
    #[tactic(auto, using(crate::proofs::Made::same_long, crate::proofs::Made::joined_held))]
    pub fn joined(&self, other: &Marking) -> Marking
        ensures long { length result ≡ length self.now }
        ensures marks { (q : ℕ) → q < length self.now → at result q ≡ first_mark (at self.now q) (at other.now q) }
    {
        let all = Set::below(self.statements);
        let present = other.present.without(self.absent).common(all);
        let absent = other.absent.without(self.present).common(all);
        Marking {
            present: self.present.union(present),
            absent: self.absent.union(absent),
            statements: self.statements,
        }
    }

    // Whether another marking has every mark of this one, and perhaps more.
    #[tactic(auto, using(crate::proofs::Held::below_kept, crate::proofs::Held::kept_marked))]
    pub fn is_below(&self, other: &Marking) -> bool
        ensures { IsTrue result ↔ Below self.now other.now }
    {
        self.unmet(other).is_empty()
    }

    // The statements that this marking has in or out, and the other has not so.
    #[tactic(auto, using(crate::proofs::Held::unmet_held))]
    pub fn unmet(&self, marking: &Marking) -> Set
        ensures { (q : ℕ) → contains result q ≡ not (is_kept (at self.now q) (at marking.now q)) }
    {
        let present = self.present.without(marking.present);
        present.union(self.absent.without(marking.absent))
    }

    // What findings say of the statements: of two findings of one statement, the first. Of more than 128 statements, the
    // first 128.
    pub fn noted(statements: u16, findings: &[Finding]) -> Marking
        ensures { result ≡ map (found findings.now) (range_with_len 0 (min statements 128)) }
    {
        let mut marking = Marking::all_open(statements);
        for finding in findings.iter().rev() {
            marking.set(finding.statement, Mark::from(finding.present));
        }
        marking
    }
}
