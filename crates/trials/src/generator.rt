// Random programs: up to eight statements that rules speak of, and now and then many more that stand in no rule; heads
// of none to three statements; weights from small ranges, so that ties and cancelling happen. Now and then several
// hundred rules that never fire stand before the others.
use super::model::{Aggregate, Member, Program, RELATIONS, Relation, Rule};
use super::random::Random;
use super::values::Reckoning;
use std::alloc::{AllocError, Global};

// How often each number of core statements comes.
const CORES: [u16; 16] = [0, 1, 1, 2, 2, 3, 3, 4, 4, 5, 5, 6, 6, 7, 7, 8];

// How often each number of head statements comes.
const HEADS: [u16; 8] = [0, 1, 1, 1, 1, 1, 2, 3];

// How often each number of literals of one part of a body comes.
const PREMISES: [u16; 8] = [0, 0, 0, 0, 1, 1, 1, 2];

// How often each number of aggregates of a rule comes.
const SETS: [u16; 16] = [0, 0, 0, 0, 0, 0, 0, 0, 1, 1, 1, 1, 1, 2, 3, 4];

// The most literals of each part, and the most aggregates, that a rule may have.
const LONGEST: [u16; 4] = [8, 32, 32, 4];

// The fewest rules that never fire, where there are such: the numbers of the rules behind them need two bytes.
const IDLE: u16 = 256;

// The most members of each of their sets, so that all members have room in a table.
const FEW: u16 = 2;

// Bounds beside the usual ones.
const FAR_BOUNDS: [i32; 8] = [
    i32::MIN,
    -2_000_000,
    -1_000_000,
    0,
    1_000_000,
    1_999_999,
    2_000_000,
    i32::MAX,
];

// The weights that a program picks from.
fn scale(random: &mut Random) -> &'static [i32] {
    match random.below(16) {
        0..=4 => &[-2, -1, 0, 1, 2, 3],
        5..=7 => &[1, 2, 3],
        8..=9 => &[1],
        10..=12 => &[-1, 1],
        13..=14 => &[-4, 4, 5],
        _ => &[-1_000_000, -999_999, -1, 0, 1, 999_999, 1_000_000],
    }
}

// What makes the rules of one program.
#[derive(Drop)]
struct Maker<'a> {
    heap: Global,
    random: &'a mut Random,
    core: u16,
    reckoning: Reckoning,
    scale: &'static [i32],
    // Whether an aggregate may have a kind that the family lacks.
    lacks: bool,
}

impl Maker<'_> {
    fn push_literals(&mut self, literals: &mut Vec<u16>, often: &[u16]) -> Result<(), AllocError> {
        if self.core == 0 {
            return Ok(());
        }
        for _ in 0..self.random.pick(often, 0) {
            literals.push(self.random.below(self.core))?;
        }
        Ok(())
    }

    fn kind(&mut self) -> u8 {
        if self.lacks && self.random.one_in(3) {
            let above = self.random.pick(&[0u8, 1, 7, 251], 0);
            return self.reckoning.kinds().saturating_add(above);
        }
        let kinds: &[u8] = match self.reckoning {
            Reckoning::House => &[0, 1, 2, 3],
            Reckoning::Bench => &[0, 1],
        };
        self.random.pick(kinds, 0)
    }

    fn bound(&mut self) -> i32 {
        if self.random.one_in(24) {
            return self.random.pick(&FAR_BOUNDS, 0);
        }
        self.random.between(-2, 4)
    }

    // Some of so many statements, or now and then all of them, each once; they are gone through from any of them on.
    fn members(&mut self, most: u16) -> Result<Vec<Member>, AllocError> {
        let mut members = Vec::new(self.heap);
        let core = self.core;
        let first = self.random.below(core);
        let all = self.random.one_in(6);
        for step in 0..core.min(most) {
            if all || self.random.one_in(2) {
                let statement = first.saturating_add(step).checked_rem(core).unwrap_or(0);
                let weight = self.random.pick(self.scale, 1);
                members.push(Member { statement, weight })?;
            }
        }
        Ok(members)
    }

    fn aggregate(&mut self, most: u16) -> Result<Aggregate, AllocError> {
        Ok(Aggregate {
            kind: self.kind(),
            relation: self.random.pick(&RELATIONS, Relation::Equal),
            bound: self.bound(),
            members: self.members(most)?,
        })
    }

    fn push_aggregates(&mut self, rule: &mut Rule, count: u16) -> Result<(), AllocError> {
        for _ in 0..count {
            rule.aggregates.push(self.aggregate(self.core)?)?;
        }
        Ok(())
    }

    fn rule(&mut self) -> Result<Rule, AllocError> {
        let mut rule = Rule::new(self.heap);
        self.push_literals(&mut rule.head, &HEADS)?;
        if self.random.one_in(6) {
            return Ok(rule);
        }
        self.push_literals(&mut rule.positive, &PREMISES)?;
        self.push_literals(&mut rule.negative, &PREMISES)?;
        let count = self.random.pick(&SETS, 0);
        self.push_aggregates(&mut rule, count)?;
        Ok(rule)
    }

    // A rule that has the most of one part, or of two.
    fn long_rule(&mut self) -> Result<Rule, AllocError> {
        let [heads, positives, negatives, sets] = LONGEST;
        let mut rule = Rule::new(self.heap);
        self.push_literals(&mut rule.head, &[1, 1, heads])?;
        self.push_literals(&mut rule.positive, &[0, 0, positives])?;
        self.push_literals(&mut rule.negative, &[0, 0, negatives])?;
        let count = self.random.pick(&[0, sets], 0);
        self.push_aggregates(&mut rule, count)?;
        Ok(rule)
    }

    // A rule that never fires, since it wants one statement both in and out.
    fn idle_rule(&mut self) -> Result<Rule, AllocError> {
        let mut rule = Rule::new(self.heap);
        self.push_literals(&mut rule.head, &HEADS)?;
        let both = self.random.below(self.core);
        rule.positive.push(both)?;
        rule.negative.push(both)?;
        rule.aggregates.push(self.aggregate(FEW)?)?;
        Ok(rule)
    }

    fn push_idle_rules(&mut self, rules: &mut Vec<Rule>) -> Result<(), AllocError> {
        let count = IDLE.saturating_add(self.random.below(128));
        for _ in 0..count {
            rules.push(self.idle_rule()?)?;
        }
        Ok(())
    }

    // Two rules about two statements: either just one of the two is chosen, so that there are several answer sets, or
    // each stands on the other.
    fn push_pair(&mut self, rules: &mut Vec<Rule>) -> Result<(), AllocError> {
        let one = self.random.below(self.core);
        let other = self.random.below(self.core);
        let is_choice = self.random.one_in(2);
        for (head, premise) in [(one, other), (other, one)] {
            let mut rule = Rule::new(self.heap);
            rule.head.push(head)?;
            if is_choice {
                rule.negative.push(premise)?;
            } else {
                rule.positive.push(premise)?;
            }
            rules.push(rule)?;
        }
        Ok(())
    }

    fn push_rules(&mut self, rules: &mut Vec<Rule>, count: u16) -> Result<(), AllocError> {
        for _ in 0..count {
            let is_long = self.random.one_in(64);
            rules.push(if is_long {
                self.long_rule()?
            } else {
                self.rule()?
            })?;
        }
        Ok(())
    }

    fn rules(&mut self) -> Result<Vec<Rule>, AllocError> {
        let mut rules = Vec::new(self.heap);
        if self.core > 0 && self.random.one_in(32) {
            self.push_idle_rules(&mut rules)?;
        }
        let pairs = if self.core > 1 {
            self.random.pick(&[0u16, 0, 1, 2], 0)
        } else {
            0
        };
        for _ in 0..pairs {
            self.push_pair(&mut rules)?;
        }
        let most = self.core.saturating_add(self.core).min(12);
        let count = self.random.below(most.saturating_add(2));
        self.push_rules(&mut rules, count)?;
        Ok(rules)
    }
}

// A letter of a name, from `!` to `~`.
fn letter(number: u16) -> char {
    char::from((33 + number % 94) as u8)
}

// The names of a program differ in one or two letters behind a beginning that they share; what follows may be anything.
fn push_name(name: &mut String, random: &mut Random, number: u16) -> Result<(), AllocError> {
    if number < 93 {
        name.push(letter(number))?;
    } else {
        name.push('~')?;
        name.push(letter(number.saturating_sub(93)))?;
    }
    if random.one_in(2) {
        return Ok(());
    }
    let room = 32usize.saturating_sub(name.len());
    for _ in 0..random.place(room.saturating_add(1)) {
        name.push(letter(random.below(94)))?;
    }
    Ok(())
}

// A letter so many times.
fn repeated(heap: Global, letter: char, times: u16) -> Result<String, AllocError> {
    let mut text = String::new(heap);
    for _ in 0..times {
        text.push(letter)?;
    }
    Ok(text)
}

fn names(heap: Global, random: &mut Random, count: u16) -> Result<Vec<String>, AllocError> {
    let mut names = Vec::new(heap);
    let shared = random.pick(&[0u16, 0, 0, 1, 5, 30], 0);
    let first = letter(random.below(94));
    for number in 0..count {
        let mut name = repeated(heap, first, shared)?;
        push_name(&mut name, random, number)?;
        names.push(name)?;
    }
    Ok(names)
}

// How many statements stand in no rule, behind the core.
fn spare(random: &mut Random, core: u16) -> u16 {
    let all = match random.below(48) {
        0 => 128,
        1 => 64,
        2 => 65,
        3 => 70,
        4..=6 => 12,
        _ => 0,
    };
    core.max(all).saturating_sub(core)
}

// A program for a family.
pub(crate) fn random_program(
    heap: Global,
    random: &mut Random,
    reckoning: Reckoning,
) -> Result<Program, AllocError> {
    let core = random.pick(&CORES, 0);
    let count = core.saturating_add(spare(random, core));
    let names = names(heap, random, count)?;
    let scale = scale(random);
    let lacks = random.one_in(12);
    let mut maker = Maker {
        heap,
        random,
        core,
        reckoning,
        scale,
        lacks,
    };
    let rules = maker.rules()?;
    Ok(Program { core, names, rules })
}
