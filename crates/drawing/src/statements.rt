ghost use Rattle.std.specs.Prelude.{◌<◌, length};
ghost use Rattle.drawing.specs.Applying.{Applied};
ghost use Rattle.drawing.specs.Passing.{StatementPassed};
ghost use Rattle.drawing.specs.Supports.{Standing, SupportIs};
ghost use Rattle.drawing.specs.Sweeps.{Counted, StatementsPassed};
ghost use Rattle.semantics.specs.Families.{Values};
ghost use Rattle.table.specs.Tables.{program_of, rules_of};

use super::explaining::explain;
use super::forcing::{Clash, force};
use super::supports::{Support, Supports};
use judging::Literal;
use marking::Marking;
use semantics::Mark;
use table::table::Table;

// Applies the second and the fourth step to a statement with this support.
fn apply_statement(
    table: &Table,
    marking: &mut Marking,
    support: Support,
    statement: u16,
) -> Result<(), Clash>
    ensures { (value : Values)
        → SupportIs value (rules_of table.now) (length (rules_of table.now)) marking.old statement support
        → Applied value (program_of table.now) marking.old marking.new result
        (Standing value (rules_of table.now) marking.old statement support → StatementPassed value (rules_of table.now) marking.old statement) }
{
    match support {
        Support::Unsupported => {
            let out = Literal {
                statement,
                present: false,
            };
            force(marking, out)
        }
        Support::OneRule(rule) => {
            if marking.mark(statement) == Mark::In {
                explain(table, marking, statement, rule)
            } else {
                Ok(())
            }
        }
        Support::ManyRules => Ok(()),
    }
}

// Applies the second and the fourth step to each statement in turn.
pub(crate) fn apply_statements(
    table: &Table,
    marking: &mut Marking,
    supports: &Supports,
) -> Result<(), Clash>
    ensures { (value : Values)
        → Counted value (rules_of table.now) (length (rules_of table.now)) marking.old supports.now.by
        → Applied value (program_of table.now) marking.old marking.new result
        (StatementsPassed value (rules_of table.now) marking.old supports.now.by) }
{
    for statement in 0..marking.statements() {
        apply_statement(table, marking, supports.of(statement), statement)?;
    }
    Ok(())
}
