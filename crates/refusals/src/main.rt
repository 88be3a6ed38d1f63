#![tactic(auto)]

use cases::Word;
use format::check::{Counts, check};

// Says of each case what the check says of its bytes. A case is a line: a name, then bytes in hexadecimal, where
// `00ff*3` stands for `00ff` three times.

fn tell(rt: &HostRuntime, line: &str) -> anyhow::Result<()> {
    let (name, words) = line.split_once(' ').unwrap_or((line, ""));
    let mut bytes = Vec::new(rt.alloc());
    for word in words.split_whitespace() {
        Word::parse(word)?.push_to(&mut bytes)?;
    }
    match check(&bytes) {
        Ok(counts) => {
            let Counts {
                statements,
                rules,
                literals,
                aggregates,
                members,
                names,
            } = counts;
            println!(rt;
                "{name}: accepted {statements} {rules} {literals} {aggregates} {members} {names}"
            )?;
        }
        Err(fault) => println!(rt; "{name}: {fault}")?,
    }
    Ok(())
}

// The loop over the lines stays in each of the four programs: a function that takes `tell` would be longer than the loop.
fn main(rt: HostRuntime) -> anyhow::Result<()> {
    let text = std::io::read_to_string(rt.alloc(), rt.stdin())?;
    for line in text.lines() {
        tell(&rt, line)?;
    }
    Ok(())
}
