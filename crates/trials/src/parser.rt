// Reads rules as people write them, for the published examples: `a | b :- c, not d, sum{e:4, f:-4} >= 8.`
use super::model::{Aggregate, Member, Relation, Rule};
use anyhow::anyhow;
use std::alloc::Global;

// What the next word of a body is part of.
#[derive(Clone, Copy)]
enum Next {
    Premise,
    Negative,
    Member,
    Relation,
    Bound,
}

// The statement of a name.
pub(crate) fn find_name(names: &[String], word: &str) -> anyhow::Result<u16> {
    for (number, name) in names.iter().enumerate() {
        if name.as_str() == word {
            return Ok(u16::try_from(number)?);
        }
    }
    Err(anyhow!("no statement is called {word}"))
}

// The kind of a name; spread and odd are kinds of the bench family.
fn read_kind(word: &str) -> anyhow::Result<u8> {
    match word {
        "count" | "spread" => Ok(0),
        "sum" | "odd" => Ok(1),
        "min" => Ok(2),
        "max" => Ok(3),
        _ => Err(anyhow!("{word} is no kind")),
    }
}

fn read_relation(word: &str) -> anyhow::Result<Relation> {
    match word {
        "<" => Ok(Relation::Less),
        "<=" => Ok(Relation::AtMost),
        "=" => Ok(Relation::Equal),
        "!=" => Ok(Relation::Unequal),
        ">=" => Ok(Relation::AtLeast),
        ">" => Ok(Relation::More),
        _ => Err(anyhow!("{word} is no relation")),
    }
}

// A word without the comma behind it.
fn without_comma(word: &str) -> &str {
    word.strip_suffix(',').unwrap_or(word)
}

// The rule of a line, as far as it is read.
#[derive(Drop)]
struct Reader<'a> {
    heap: Global,
    names: &'a [String],
    next: Next,
    rule: Rule,
    aggregate: Aggregate,
}

impl Reader<'_> {
    fn begin_aggregate(&mut self, kind: &str) -> anyhow::Result<()> {
        self.aggregate = no_aggregate(self.heap);
        self.aggregate.kind = read_kind(kind)?;
        self.next = Next::Member;
        Ok(())
    }

    // Reads a member with its weight; behind the last one stands a brace.
    fn read_member(&mut self, word: &str) -> anyhow::Result<()> {
        let word = without_comma(word);
        let member = word.strip_suffix('}').unwrap_or(word);
        if member.len() < word.len() {
            self.next = Next::Relation;
        }
        if let Some((name, weight)) = member.split_once(':') {
            let statement = find_name(self.names, name)?;
            let weight = weight.parse::<i32>()?;
            self.aggregate.members.push(Member { statement, weight })?;
        }
        Ok(())
    }

    fn read_premise(&mut self, word: &str) -> anyhow::Result<()> {
        if word == "not" {
            self.next = Next::Negative;
            return Ok(());
        }
        if let Some((kind, member)) = word.split_once('{') {
            self.begin_aggregate(kind)?;
            return self.read_member(member);
        }
        let statement = find_name(self.names, without_comma(word))?;
        self.rule.positive.push(statement)?;
        Ok(())
    }

    fn read_negative(&mut self, word: &str) -> anyhow::Result<()> {
        let statement = find_name(self.names, without_comma(word))?;
        self.rule.negative.push(statement)?;
        self.next = Next::Premise;
        Ok(())
    }

    fn end_aggregate(&mut self, bound: &str) -> anyhow::Result<()> {
        self.aggregate.bound = without_comma(bound).parse::<i32>()?;
        let none = no_aggregate(self.heap);
        let aggregate = std::mem::replace(&mut self.aggregate, none);
        self.rule.aggregates.push(aggregate)?;
        self.next = Next::Premise;
        Ok(())
    }

    fn read_word(&mut self, word: &str) -> anyhow::Result<()> {
        match self.next {
            Next::Premise => self.read_premise(word),
            Next::Negative => self.read_negative(word),
            Next::Member => self.read_member(word),
            Next::Relation => {
                self.aggregate.relation = read_relation(word)?;
                self.next = Next::Bound;
                Ok(())
            }
            Next::Bound => self.end_aggregate(word),
        }
    }

    fn read_head(&mut self, head: &str) -> anyhow::Result<()> {
        for word in head.split_whitespace() {
            if word != "|" {
                let statement = find_name(self.names, word)?;
                self.rule.head.push(statement)?;
            }
        }
        Ok(())
    }

    fn read_body(&mut self, body: &str) -> anyhow::Result<()> {
        for word in body.split_whitespace() {
            self.read_word(word)?;
        }
        Ok(())
    }
}

fn no_aggregate(heap: Global) -> Aggregate {
    Aggregate {
        kind: 0,
        relation: Relation::Equal,
        bound: 0,
        members: Vec::new(heap),
    }
}

// The rule of a line, about statements of these names.
pub(crate) fn read_rule(heap: Global, names: &[String], line: &str) -> anyhow::Result<Rule> {
    let mut reader = Reader {
        heap,
        names,
        next: Next::Premise,
        rule: Rule::new(heap),
        aggregate: no_aggregate(heap),
    };
    let line = line.strip_suffix('.').unwrap_or(line);
    let (head, body) = line.split_once(":-").unwrap_or((line, ""));
    reader.read_head(head)?;
    reader.read_body(body)?;
    Ok(reader.rule)
}
