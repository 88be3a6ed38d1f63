#![tactic(auto)]

// Tries the engine on random tables against a plain reading of the definitions. `trials [TABLES [SEED [FIRST]]]` makes
// so many trials, from the number of the first one on; a trial depends on the seed and on its number alone. Every kind
// of call is told on a line of its own, with how often which answer was expected and how many were given. The first
// differences are told in full, and with any the program ends with an error.

mod answers;
mod damage;
mod engine;
mod examples;
mod faults;
mod generator;
mod known;
mod ledger;
mod model;
mod parser;
mod places;
mod published;
mod random;
mod reader;
mod requests;
mod rows;
mod setting;
mod steps;
mod tables;
mod tally;
mod told;
mod trial;
mod values;
mod writer;

use anyhow::anyhow;
use bench::Bench;
use examples::try_example;
use house::House;
use published::EXAMPLES;
use random::Random;
use std::alloc::AllocError;
use std::env;
use tally::{CALLS, Tally};
use trial::Trials;
use values::Reckoning;

// How many trials are made unless the call says so.
const TABLES: u64 = 1000;

// What the program is called with.
#[derive(Drop)]
struct Extent {
    tables: u64,
    seed: u64,
    first: u64,
}

// A number of the call, or what stands for it where there is none.
fn number_or(text: Option<&String>, usual: u64) -> anyhow::Result<u64> {
    match text {
        Some(text) => Ok(text.parse::<u64>()?),
        None => Ok(usual),
    }
}

fn read_extent(rt: &HostRuntime) -> anyhow::Result<Extent> {
    let words = env::args(rt)?.collect::<Vec<String>>(rt.alloc())?;
    Ok(Extent {
        tables: number_or(words.get(1), TABLES)?,
        seed: number_or(words.get(2), 1)?,
        first: number_or(words.get(3), 0)?,
    })
}

// The dice of one trial, which begin at a state of its own.
fn source(seed: u64, number: u64) -> Random {
    let apart = number.wrapping_mul(0xd134_2543_de82_ef95);
    Random::new(seed.wrapping_mul(0x2545_f491_4f6c_dd1d).wrapping_add(apart))
}

// Makes one trial, under one family or the other.
fn make(trials: &mut Trials) -> Result<(), AllocError> {
    let mut random = source(trials.seed, trials.number);
    if random.one_in(2) {
        trials.make(&mut random, &House, Reckoning::House)
    } else {
        trials.make(&mut random, &Bench, Reckoning::Bench)
    }
}

fn tell(rt: &HostRuntime, tally: &Tally) -> anyhow::Result<()> {
    for call in CALLS {
        rt.println(tally.text(rt.alloc(), call)?.as_str())?;
    }
    Ok(())
}

fn tell_differences(rt: &HostRuntime, tally: &Tally) -> anyhow::Result<()> {
    for difference in &tally.differences {
        rt.println(difference.as_str())?;
    }
    Ok(())
}

// Tells of each published example how many answer sets it has, where they come from, and whether all agree on them.
fn tell_examples(rt: &HostRuntime) -> anyhow::Result<bool> {
    let mut all = true;
    for example in EXAMPLES {
        let finish = try_example(rt.alloc(), &example)?;
        let (title, count, basis) = (example.title, finish.answer_sets, example.basis);
        println!(rt; "{title}: answer sets {count}, {basis}; {finish}")?;
        all = all && finish.agrees();
    }
    Ok(all)
}

fn main(rt: HostRuntime) -> anyhow::Result<()> {
    let heap = rt.alloc();
    let examples_agree = tell_examples(&rt)?;
    let extent = read_extent(&rt)?;
    let (tables, seed) = (extent.tables, extent.seed);
    println!(rt; "{tables} trials of random tables, seed {seed}")?;
    let mut trials = Trials {
        heap,
        seed,
        number: 0,
        tally: Tally::new(heap),
    };
    for step in 0..tables {
        trials.number = extent.first.saturating_add(step);
        make(&mut trials)?;
    }
    tell(&rt, &trials.tally)?;
    tell_differences(&rt, &trials.tally)?;
    if !examples_agree || !trials.tally.all_agree() {
        return Err(anyhow!("the engine and the plain reading differ"));
    }
    Ok(())
}
