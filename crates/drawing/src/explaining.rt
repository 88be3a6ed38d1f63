ghost use Rattle.drawing.specs.Applying.{Applied};
ghost use Rattle.drawing.specs.Passing.{Explained};
ghost use Rattle.drawing.specs.Supports.{OneSupport};
ghost use Rattle.semantics.specs.Families.{Values};
ghost use Rattle.semantics.specs.Markings.{at};
ghost use Rattle.semantics.specs.declared.Mark.TheVariants.{In};
ghost use Rattle.table.specs.Tables.{nth_rule, program_of, rules_of};
ghost use Rattle.std.specs.Prelude.{◌≡◌, length};

use super::forcing::{Clash, force_run};
use marking::Marking;
use table::table::Table;

// A statement is in and one rule is left for it: marks that rule's positive statements in, its negative ones out, and
// the other statements of its head out.
pub(crate) fn explain(
    table: &Table,
    marking: &mut Marking,
    statement: u16,
    rule: usize,
) -> Result<(), Clash>
    ensures { (value : Values)
        → OneSupport value (rules_of table.now) (length (rules_of table.now)) marking.old statement rule
        → at marking.old statement ≡ In
        → Applied value (program_of table.now) marking.old marking.new result
        (Explained marking.old (nth_rule table.now rule) statement) }
{
    let rule = table.rule(rule);
    force_run(table, marking, rule.positive, true, None)?;
    force_run(table, marking, rule.negative, false, None)?;
    force_run(table, marking, rule.head, false, Some(statement))
}
