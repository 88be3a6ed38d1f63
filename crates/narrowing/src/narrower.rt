ghost use Rattle.narrowing.specs.Excluding.{Excludes};
ghost use Rattle.rulesets.specs.Judging.{program_in};

use super::mentions::Mentions;
use super::work::{Forced, Work};
use family::Family;
use marking::{Marking, Set};
use rulesets::Judge;
use semantics::Mark;

// A limit on what is looked at before a mark is made: more than there ever is.
const MOST_LOOKS: usize = 200_000;

// What finds nogoods of a table under a family: markings with which no answer set agrees.
#[derive(Drop)]
pub struct Narrower<'a, F> {
    pub judge: Judge<'a, F>,
    pub mentions: &'a Mentions,
}

impl<'a, F: Family> Narrower<'a, F> {
    // What forces one member of an aggregate is tried on the first of the others that is open.
    fn force_another(&self, work: &mut Work, marking: &Marking) -> Option<Marking>
        ensures { Excludes (F.value self.now.judge.family.now) (program_in self.now.judge) result }
    {
        let last = work.last?;
        work.last = None;
        let marked = marking.present().union(marking.absent());
        let statement = last.members.without(marked).first()?;
        let nogood = last.marks.with(statement, Mark::from(last.present));
        let found = match last.by {
            Forced::Rule(i) => self.if_broken(nogood, i),
            Forced::Statement(q) => self.if_unfounded(nogood, Set::single(q)),
        };
        if found.is_some() {
            work.last = Some(last);
        }
        found
    }

    // A nogood that is met by the marking, or all but one open statement, or none where none is seen: first of what
    // supports a statement, then of the rules, and then of the statements that only support each other.
    pub fn nogood(&self, work: &mut Work, marking: &Marking, trail: &[u16]) -> Option<Marking>
        ensures { Excludes (F.value self.now.judge.family.now) (program_in self.now.judge) result }
    {
        let found = self.force_another(work, marking);
        if found.is_some() {
            return found;
        }
        for _ in 0..MOST_LOOKS {
            if let Some(statement) = work.statements.first() {
                let found = self.examine_statement(work, marking, statement);
                if found.is_some() {
                    return found;
                }
                work.remove_statement(statement);
            } else if let Some(rule) = work.rules.first() {
                let found = self.examine_rule(work, marking, rule);
                if found.is_some() {
                    return found;
                }
                work.rules.remove(rule);
            } else if let Some(statement) = trail.get(work.looked).copied() {
                work.add_marked(self.mentions, marking, statement);
            } else {
                return self.examine_circles(marking);
            }
        }
        None
    }
}
