#![tactic(auto)]

ghost use Rattle.journal.specs.Keeping.{Kept};
ghost use Rattle.std.specs.Prelude.{IfOk, string_bytes};

use anyhow::anyhow;
use daybook::{Day, standing_text};
use family::Family;
use house::House;
use sheet::run;
use std::alloc::{AllocError, Global};
use std::env;
use std::fs::File;
use std::io::Read;
use table::table::Table;

const USE: &str = "journal TABLE < JOURNAL

Makes the visits of a restorer's journal to a sheet that is begun on a table of rules, under the house family,
and tells what came of each. A journal has one visit a line, or one question about the account that was found:

enter NAME in    (or out)    a finding, behind those that stand
withdraw                     the latest finding is taken off
draw                         what the findings force
seek                         the earliest account that agrees with them
weigh NAME                   whether it is in every account, in none, or in some only
suppose NAME in  (or out)    seek with one finding more, which does not stay
why NAME                     on which rule it stands in the account that was found last

Blank lines and lines that begin with # are passed over.
";

// Reads a journal, makes its visits on a sheet that is begun on a table, and tells what came of them and what stands
// then.
fn keep<F: Family>(
    heap: Global,
    table: &Table,
    family: &F,
    journal: &str,
) -> Result<String, AllocError>
    ensures { IfOk result (λ s.
        Kept (F.size family.now) (F.value family.now) table.now.bytes.now journal.now (string_bytes s)) }
{
    let mut day = Day::read(heap, table, journal)?;
    let sheet = run(table, family, &mut day.entries);
    let mut text = day.text(heap, table, family, &sheet)?;
    let standing = standing_text(heap, table, sheet.findings())?;
    text.push_str(standing.as_str())?;
    Ok(text)
}

// The table is the file that the first argument names, and the journal is read from standard input. Without an argument
// it says how it is used.
fn main(rt: HostRuntime) -> anyhow::Result<()> {
    let heap = rt.alloc();
    let Some(path) = env::args(&rt)?.nth(1) else {
        print!(rt; "{USE}")?;
        return Ok(());
    };
    let mut bytes = Vec::new(heap);
    File::open(&rt, path.as_str())?
        .take(Table::most_read())
        .read_to_end(&mut bytes)?;
    let table = Table::open(&bytes);
    if let Err(fault) = table.counts() {
        return Err(anyhow!("the table is {fault}: {}", fault.refusal));
    }
    let mut written = Vec::new(heap);
    rt.stdin().read_to_end(&mut written)?;
    // A line with bytes that are no text is told as a mistake, like any other.
    let journal = String::from_utf8_lossy(heap, &written)?;
    let told = keep(heap, &table, &House, &journal)?;
    print!(rt; "{told}")?;
    Ok(())
}
