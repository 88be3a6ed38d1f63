#![tactic(auto)]

pub mod markings;
pub mod rows;
mod theorems;

ghost use Rattle.semantics.specs.Codes.{Decodes};
ghost use Rattle.semantics.specs.Markings.{marked};
ghost use Rattle.semantics.specs.Programs.{stands};
ghost use Rattle.semantics.specs.Words.{mark_text, relation_text};
ghost use Rattle.std.specs.Prelude.{◌≡◌, ◌++◌, Some, codes, decimal};

use std::error::Error;
use std::fmt;

// What is known of a statement. Stays an enum of three: an `Option<bool>` would say less by its words.
#[derive(Clone, Copy, PartialEq, Eq, Debug)]
pub enum Mark {
    Open,
    In,
    Out,
}

// A statement that is present is in, and one that is absent is out.
impl From<bool> for Mark {
    ghost from_gives = { λ present mark. mark ≡ marked present };

    fn from(present: bool) -> Mark {
        if present { Mark::In } else { Mark::Out }
    }
}

impl fmt::Display for Mark {
    ghost output = { λ mark. Some (mark_text mark) };

    fn fmt<W: fmt::Write>(&self, f: &mut fmt::Formatter<W>) -> fmt::Result {
        f.write_str(match self {
            Mark::Open => "open",
            Mark::In => "in",
            Mark::Out => "out",
        })
    }
}

// How the value of an aggregate is held against its bound.
#[derive(Clone, Copy, PartialEq, Eq, Debug)]
pub enum Relation {
    Less,
    AtMost,
    Equal,
    Unequal,
    AtLeast,
    More,
}

impl Relation {
    // Whether the value stands in this relation to the bound.
    pub fn holds(self, value: i64, bound: i64) -> bool
        ensures { result ≡ stands self value bound }
    {
        match self {
            Relation::Less => value < bound,
            Relation::AtMost => value <= bound,
            Relation::Equal => value == bound,
            Relation::Unequal => value != bound,
            Relation::AtLeast => value >= bound,
            Relation::More => value > bound,
        }
    }
}

// A code that no relation has.
#[derive(Clone, Copy, PartialEq, Eq, Debug)]
pub struct UnknownRelation(pub u8);

impl fmt::Display for UnknownRelation {
    ghost output = { λ unknown. Some (codes "no relation has code " ++ decimal unknown.0) };

    fn fmt<W: fmt::Write>(&self, f: &mut fmt::Formatter<W>) -> fmt::Result {
        write!(f, "no relation has code {}", self.0)
    }
}

impl Error for UnknownRelation {}

impl TryFrom<u8> for Relation {
    type Error = UnknownRelation;

    ghost try_from_gives = { Decodes };

    fn try_from(code: u8) -> Result<Relation, UnknownRelation> {
        match code {
            0 => Ok(Relation::Less),
            1 => Ok(Relation::AtMost),
            2 => Ok(Relation::Equal),
            3 => Ok(Relation::Unequal),
            4 => Ok(Relation::AtLeast),
            5 => Ok(Relation::More),
            _ => Err(UnknownRelation(code)),
        }
    }
}

impl fmt::Display for Relation {
    ghost output = { λ relation. Some (relation_text relation) };

    fn fmt<W: fmt::Write>(&self, f: &mut fmt::Formatter<W>) -> fmt::Result {
        f.write_str(match self {
            Relation::Less => "<",
            Relation::AtMost => "<=",
            Relation::Equal => "=",
            Relation::Unequal => "!=",
            Relation::AtLeast => ">=",
            Relation::More => ">",
        })
    }
}

// A statement with its weight in the set of an aggregate.
#[derive(Clone, Copy, PartialEq, Eq, Debug)]
pub struct Member {
    pub statement: u16,
    pub weight: i32,
}

// A statement that was found present, or found absent.
#[derive(Clone, Copy, PartialEq, Eq, Debug)]
pub struct Finding {
    pub statement: u16,
    pub present: bool,
}
