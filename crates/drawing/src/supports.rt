ghost use Rattle.std.specs.Prelude.{◌≡◌, ℕ, List, length, replicate, slice_set};
ghost use Rattle.drawing.specs.Supports.{added, supported_by, with_rule};
ghost use Rattle.drawing.specs.declared.supports.Support.TheVariants.{Unsupported};
ghost use Rattle.table.specs.Tables.{contents_of};
ghost use Rattle.table.specs.View.{Covers};

use table::table::{Run, Table};

// The rules with a statement in the head that are not refuted: none, one, by its number, or several.
#[derive(Clone, Copy)]
pub(crate) enum Support {
    Unsupported,
    OneRule(usize),
    ManyRules,
}

impl Support {
    // With a rule that is not refuted.
    fn with(self, rule: usize) -> Support
        ensures { result ≡ with_rule self rule }
    {
        match self {
            Support::Unsupported => Support::OneRule(rule),
            Support::OneRule(other) if other == rule => self,
            Support::OneRule(_) | Support::ManyRules => Support::ManyRules,
        }
    }
}

// The support of each statement, within the format's limit of 128 statements. Stays an array: drawing allocates nothing.
#[derive(Drop)]
pub(crate) struct Supports {
    by: [Support; 128],
    ghost long: { length by ≡ 128 },
}

impl Supports {
    pub(crate) fn none() -> Supports
        ensures { result.by ≡ replicate 128 Unsupported }
    {
        Supports {
            by: [Support::Unsupported; 128],
        }
    }

    // The support of a statement.
    pub(crate) fn of(&self, statement: u16) -> Support
        ensures { result ≡ supported_by self.now.by statement }
    {
        self.by
            .get(usize::from(statement))
            .copied()
            .unwrap_or(Support::Unsupported)
    }

    // Adds a rule to the support of a statement. By the place, and not by `get_mut`: of a slice that was lent so, the kit
    // says nothing once the loan is over.
    fn add_rule(&mut self, statement: u16, rule: usize)
        ensures { self.new.by ≡ slice_set self.old.by statement (with_rule (supported_by self.old.by statement) rule) }
    {
        let place = usize::from(statement);
        if place < self.by.len() {
            self.by[place] = self.by[place].with(rule);
        }
    }

    // Adds a rule to the support of the statements of its head.
    pub(crate) fn add_heads(&mut self, table: &Table, head: Run, rule: usize)
        ensures { (qs : List ℕ)
            → Covers (contents_of table.now).literals qs head
            → self.new.by ≡ added self.old.by qs rule }
    {
        for k in (head.first..head.end).rev() {
            self.add_rule(table.literal(k), rule);
        }
    }
}
