#![tactic(auto)]

use std::io;
use std::io::{Read, Write};
use table::table::Table;

// Shows the table on standard input as people read it, what its rules force by themselves, and their earliest account.
fn main(rt: HostRuntime) -> io::Result<()> {
    let heap = rt.alloc();
    let mut bytes = Vec::new(heap);
    rt.stdin().take(Table::most_read()).read_to_end(&mut bytes)?;
    let text = inspection::inspected(heap, &bytes)?;
    rt.stdout().write_all(text.as_bytes())
}
