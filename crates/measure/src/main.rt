#![tactic(auto)]

use house::House;
use marking::Marking;
use solver::Accounts;
use std::env;
use std::io::Read;
use std::time::{Duration, Instant};
use table::table::Table;

// Seeks the earliest account of a table under the house family and no findings, and says how much was searched.
fn seek(rt: &HostRuntime, table: &Table) -> anyhow::Result<()> {
    let accounts = Accounts::new(table, &House);
    match accounts.earliest(Marking::all_open(table.statements())) {
        Some(account) => println!(rt; "account {}", account.statements_in)?,
        None => println!(rt; "none")?,
    }
    let (seeking, testing) = (&accounts.seeking, &accounts.testing);
    println!(rt;
        "search nodes {}, conflicts {}",
        seeking.nodes.get(),
        seeking.conflicts.get()
    )?;
    println!(rt;
        "test nodes {}, conflicts {}",
        testing.nodes.get(),
        testing.conflicts.get()
    )?;
    Ok(())
}

// The least time that one of so many seekings takes.
fn least_time(rt: &HostRuntime, table: &Table, turns: u32) -> anyhow::Result<Duration> {
    let mut least = Duration::MAX;
    for _ in 0..turns {
        let start = Instant::now(rt)?;
        let accounts = Accounts::new(table, &House);
        accounts.earliest(Marking::all_open(table.statements()));
        least = least.min(start.elapsed(rt)?);
    }
    Ok(least)
}

// What is said of the table on standard input. With a number as its argument, the program seeks so many times more, and
// says the least time that one took.
fn main(rt: HostRuntime) -> anyhow::Result<()> {
    let heap = rt.alloc();
    let mut bytes = Vec::new(heap);
    rt.stdin().take(Table::most_read()).read_to_end(&mut bytes)?;
    let table = Table::open(&bytes);
    if let Err(fault) = table.counts() {
        println!(rt; "{fault}")?;
        return Ok(());
    }
    seek(&rt, &table)?;
    if let Some(turns) = env::args(&rt)?.nth(1) {
        let least = least_time(&rt, &table, turns.parse::<u32>()?)?;
        println!(rt; "microseconds {}", least.as_micros())?;
    }
    Ok(())
}
