#![tactic(auto)]

use std::io;
use std::io::{Read, Write};
use table::table::Table;

// Reports the earliest account of the table on standard input, with nothing found and under the house family.
fn main(rt: HostRuntime) -> io::Result<()> {
    let heap = rt.alloc();
    let mut bytes = Vec::new(heap);
    rt.stdin().take(Table::most_read()).read_to_end(&mut bytes)?;
    let report = reporting::reported(heap, &bytes)?;
    rt.stdout().write_all(&report)
}
