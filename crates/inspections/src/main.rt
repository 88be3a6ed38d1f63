#![tactic(auto)]

use cases::Word;
use inspection::inspected;

// Shows the table of each case, and what its rules force by themselves. A case is a line: a name, then the bytes of a
// table in hexadecimal, where `00ff*3` stands for `00ff` three times.

fn tell(rt: &HostRuntime, line: &str) -> anyhow::Result<()> {
    let heap = rt.alloc();
    let (name, words) = line.split_once(' ').unwrap_or((line, ""));
    let mut bytes = Vec::new(heap);
    for word in words.split_whitespace() {
        Word::parse(word)?.push_to(&mut bytes)?;
    }
    let text = inspected(heap, &bytes)?;
    print!(rt; "{name}:\n{text}")?;
    Ok(())
}

// The loop over the lines stays in each of the four programs: a function that takes `tell` would be longer than the loop.
fn main(rt: HostRuntime) -> anyhow::Result<()> {
    let text = std::io::read_to_string(rt.alloc(), rt.stdin())?;
    for line in text.lines() {
        tell(&rt, line)?;
    }
    Ok(())
}
