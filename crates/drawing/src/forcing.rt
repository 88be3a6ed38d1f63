ghost use Rattle.drawing.specs.Applying.{Applied, EachOther, Forced, IsMarked, Other};
ghost use Rattle.drawing.specs.Deriving.{Wanted};
ghost use Rattle.semantics.specs.Families.{Values};
ghost use Rattle.semantics.specs.Programs.{Program};
ghost use Rattle.table.specs.Tables.{contents_of};

use judging::Literal;
use marking::Marking;
use semantics::Mark;
use table::table::{Run, Table};

// No settled marking lies above the one at hand, and no answer set agrees with it.
#[derive(Clone, Copy)]
pub(crate) struct Clash;

// Marks the statement of a literal where it is open; against its mark it is a clash.
pub(crate) fn force(marking: &mut Marking, literal: Literal) -> Result<(), Clash>
    ensures { Forced marking.old marking.new literal result }
{
    let mark = marking.mark(literal.statement);
    let wanted = Mark::from(literal.present);
    if mark == wanted {
        Ok(())
    } else if mark == Mark::Open {
        marking.set(literal.statement, wanted);
        Ok(())
    } else {
        Err(Clash)
    }
}

// Marks the statement of a literal that is wanted, unless it is the one that is left out.
fn force_other(marking: &mut Marking, literal: Literal, except: Option<u16>) -> Result<(), Clash>
    ensures { (value : Values) (p : Program)
        → (Other except literal.statement → Wanted value p marking.old literal.statement literal.present)
        → Applied value p marking.old marking.new result
        (Other except literal.statement → IsMarked marking.old literal.present literal.statement) }
{
    if except == Some(literal.statement) {
        Ok(())
    } else {
        force(marking, literal)
    }
}

// Marks the statements of a run that are wanted so, but for one.
pub(crate) fn force_run(
    table: &Table,
    marking: &mut Marking,
    run: Run,
    present: bool,
    except: Option<u16>,
) -> Result<(), Clash>
    ensures { (value : Values) (p : Program)
        → EachOther (λ q. Wanted value p marking.old q present) (contents_of table.now).literals run.first run.end except
        → Applied value p marking.old marking.new result
        (EachOther (IsMarked marking.old present) (contents_of table.now).literals run.first run.end except) }
{
    for k in run.first..run.end {
        let statement = table.literal(k);
        force_other(marking, Literal { statement, present }, except)?;
    }
    Ok(())
}
