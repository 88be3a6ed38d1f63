#![tactic(auto)]

use anyhow::anyhow;
use bench::Bench;
use family::{Family, Reading};
use house::House;
use presence::Presence;

// Says of each case what a family reads off its weights. A case is a line: a name, then a colon, the family, the kind,
// and weights, sure ones after `sure` and open ones after `open`, where `7*3` stands for `7` three times.

#[derive(Clone, Copy)]
enum Standing {
    Sure,
    Open,
}

fn add<F: Family>(
    family: &F,
    tally: &mut F::Tally,
    standing: Standing,
    word: &str,
) -> anyhow::Result<()> {
    let (weight, times) = match word.split_once('*') {
        Some((weight, times)) => (weight.parse::<i32>()?, times.parse::<u16>()?),
        None => (word.parse::<i32>()?, 1),
    };
    for _ in 0..times {
        match standing {
            Standing::Sure => family.add_sure(tally, weight),
            Standing::Open => family.add_open(tally, weight),
        }
    }
    Ok(())
}

fn fill<F: Family>(family: &F, kind: u8, words: &str) -> anyhow::Result<F::Tally> {
    let mut tally = family.start(kind);
    let mut standing = Standing::Sure;
    for word in words.split_whitespace() {
        match word {
            "sure" => standing = Standing::Sure,
            "open" => standing = Standing::Open,
            _ => add(family, &mut tally, standing, word)?,
        }
    }
    Ok(tally)
}

fn read<F: Family>(family: &F, words: &str) -> anyhow::Result<Reading> {
    let (kind, weights) = words.split_once(' ').unwrap_or((words, ""));
    let tally = fill(family, kind.parse::<u8>()?, weights)?;
    Ok(family.read(&tally))
}

fn tell(rt: &HostRuntime, line: &str) -> anyhow::Result<()> {
    let (name, case) = line.split_once(": ").unwrap_or((line, ""));
    let (family, words) = case.split_once(' ').unwrap_or((case, ""));
    let reading = match family {
        "house" => read(&House, words)?,
        "bench" => read(&Bench, words)?,
        "presence" => read(&Presence, words)?,
        _ => return Err(anyhow!("a case names none of house, bench and presence")),
    };
    println!(rt; "{name}: {reading}")?;
    Ok(())
}

// The loop over the lines stays in each of the four programs: a function that takes `tell` would be longer than the loop.
fn main(rt: HostRuntime) -> anyhow::Result<()> {
    let (house, bench, presence) = (House.kinds(), Bench.kinds(), Presence.kinds());
    println!(rt; "house has {house} kinds, bench {bench}, and presence {presence}")?;
    let text = std::io::read_to_string(rt.alloc(), rt.stdin())?;
    for line in text.lines() {
        tell(&rt, line)?;
    }
    Ok(())
}
