use super::bits::{MOST_RULES, RuleBits};
use super::narrower::Narrower;
use super::work::{Forced, Forcing};
use family::{Family, Verdict};
use judging::{Literal, add_marked};
use marking::{Marking, Set};
use rulesets::Ruleset;
use semantics::{Mark, Member};
use table::table::Run;

// Which marks a nogood should have. What these functions give is checked before it is used, so nothing is promised of
// them.

// The verdict on an aggregate; and where members are open, the two of them that weigh most and least, and the tally of the
// others.
#[derive(Clone, Copy)]
pub(crate) struct Survey<T> {
    pub verdict: Verdict,
    rest: Option<(Extremes, T)>,
}

// The open members of a set of the greatest and of the least weight.
#[derive(Clone, Copy)]
pub(crate) struct Extremes {
    greatest: Member,
    least: Member,
}

impl Extremes {
    fn with(self, member: Member) -> Extremes {
        Extremes {
            greatest: if member.weight > self.greatest.weight {
                member
            } else {
                self.greatest
            },
            least: if member.weight < self.least.weight {
                member
            } else {
                self.least
            },
        }
    }
}

impl<'a, F: Family> Narrower<'a, F> {
    // The marks of the members of aggregate j by which it has this verdict: only those that are in, or only those that are
    // out, where they are enough.
    pub(crate) fn aggregate_reason(
        &self,
        marking: &Marking,
        j: usize,
        verdict: Verdict,
    ) -> Marking {
        let all = marking.within(self.mentions.member_set(j));
        let present = all.within(all.present());
        if self.judge.judge_aggregate(&present, j) == verdict {
            return present;
        }
        let absent = all.within(all.absent());
        if self.judge.judge_aggregate(&absent, j) == verdict {
            return absent;
        }
        all
    }

    // A nogood with the marks of the aggregates of a run by which they are certain.
    pub(crate) fn with_certain(&self, marking: &Marking, run: Run, nogood: Marking) -> Marking {
        let mut all = nogood;
        for j in run.first..run.end {
            all = all.joined(&self.aggregate_reason(marking, j, Verdict::Certain));
        }
        all
    }

    // The marks by which a rule may be broken.
    pub(crate) fn rule_reason(&self, marking: &Marking, rule: &Ruleset) -> Marking {
        let literals = rule.positive.union(rule.negative).union(rule.head);
        self.with_certain(marking, rule.aggregates, marking.within(literals))
    }

    // A nogood with the marks of the first aggregate of a run that is impossible.
    fn with_impossible(&self, marking: &Marking, run: Run, nogood: Marking) -> Marking {
        for j in run.first..run.end {
            if self.judge.judge_aggregate(marking, j) == Verdict::Impossible {
                return nogood.joined(&self.aggregate_reason(marking, j, Verdict::Impossible));
            }
        }
        nogood
    }

    // A nogood with a mark more by which rule i can support nothing of a set from outside it.
    fn with_blocker(&self, marking: &Marking, set: Set, i: usize, nogood: Marking) -> Marking {
        let rule = self.judge.rules.rule(i);
        let unwanted = rule
            .negative
            .union(rule.head.without(set))
            .union(rule.members.common(set));
        let is_blocked = rule.positive.meets(set.union(nogood.absent()))
            || unwanted.meets(nogood.present());
        if is_blocked {
            return nogood;
        }
        let lacking = rule.positive.common(marking.absent()).first();
        let surplus = unwanted.common(marking.present()).first();
        match (lacking, surplus) {
            (Some(out), Some(present)) if present < out => nogood.with(present, Mark::In),
            (Some(out), _) => nogood.with(out, Mark::Out),
            (None, Some(present)) => nogood.with(present, Mark::In),
            (None, None) => self.with_impossible(marking, rule.aggregates, nogood),
        }
    }

    // The rules with a statement of a set in the head.
    fn rules_of(&self, set: Set) -> RuleBits {
        let mut rules = RuleBits::none();
        let mut left = set;
        for _ in 0..128 {
            let Some(statement) = left.first() else {
                break;
            };
            left = left.without(Set::single(statement));
            if let Some(mention) = self.mentions.of(statement) {
                rules.add_all(&mention.by_head);
            }
        }
        rules
    }

    // A statement of a set is in, and the marks by which no rule, but for one perhaps, can support one from outside it.
    pub(crate) fn support_reason(
        &self,
        marking: &Marking,
        set: Set,
        statement: u16,
        but: Option<usize>,
    ) -> Marking {
        let mut nogood = Marking::all_open(marking.statements()).with(statement, Mark::In);
        let mut rules = self.rules_of(set);
        for _ in 0..MOST_RULES {
            let Some(i) = rules.take() else {
                break;
            };
            if but != Some(i) {
                nogood = self.with_blocker(marking, set, i, nogood);
            }
        }
        nogood
    }

    // The open members of a run of the greatest and of the least weight, if any is open.
    fn extremes(&self, marking: &Marking, run: Run) -> Option<Extremes> {
        let mut found: Option<Extremes> = None;
        for k in run.first..run.end {
            let member = self.judge.rules.member(k);
            if marking.mark(member.statement) != Mark::Open {
                continue;
            }
            found = Some(match found {
                Some(extremes) => extremes.with(member),
                None => Extremes {
                    greatest: member,
                    least: member,
                },
            });
        }
        found
    }

    // The tally of the members of a run but for two statements.
    fn filled_but_for(
        &self,
        marking: &Marking,
        kind: u8,
        run: Run,
        extremes: Extremes,
    ) -> F::Tally {
        let mut tally = self.judge.family.start(kind);
        for k in run.first..run.end {
            let member = self.judge.rules.member(k);
            if member.statement == extremes.greatest.statement
                || member.statement == extremes.least.statement
            {
                continue;
            }
            add_marked(
                self.judge.family,
                &mut tally,
                marking.mark(member.statement),
                member.weight,
            );
        }
        tally
    }

    // The verdict on aggregate j where one member has this mark and another this one; the tally has all the others.
    fn verdict_with(
        &self,
        j: usize,
        tally: F::Tally,
        one: (Member, Mark),
        other: (Member, Mark),
    ) -> Verdict {
        let aggregate = self.judge.rules.aggregate(j);
        let mut all = tally;
        add_marked(self.judge.family, &mut all, one.1, one.0.weight);
        if other.0.statement != one.0.statement {
            add_marked(self.judge.family, &mut all, other.1, other.0.weight);
        }
        self.judge
            .family
            .read(&all)
            .judge(aggregate.relation, i64::from(aggregate.bound))
    }

    // What aggregate j comes to, and what is needed to see what one open member more makes of it.
    pub(crate) fn survey(&self, marking: &Marking, j: usize) -> Survey<F::Tally> {
        let aggregate = self.judge.rules.aggregate(j);
        let Some(extremes) = self.extremes(marking, aggregate.members) else {
            return Survey {
                verdict: self.judge.judge_aggregate(marking, j),
                rest: None,
            };
        };
        let tally = self.filled_but_for(marking, aggregate.kind, aggregate.members, extremes);
        let greatest = (extremes.greatest, Mark::Open);
        Survey {
            verdict: self.verdict_with(j, tally, greatest, (extremes.least, Mark::Open)),
            rest: Some((extremes, tally)),
        }
    }

    // What forces a member of aggregate j, for the others: the marks of a nogood but for the mark of this one.
    pub(crate) fn forcing(
        &self,
        by: Forced,
        nogood: &Marking,
        j: usize,
        member: Literal,
    ) -> Forcing {
        Forcing {
            by,
            marks: nogood.with(member.statement, Mark::Open),
            members: self.mentions.member_set(j),
            present: member.present,
        }
    }

    // The open member of aggregate j, of the greatest or the least weight, that gives it this verdict by being in, or by
    // being out.
    pub(crate) fn deciding_member(
        &self,
        j: usize,
        survey: Survey<F::Tally>,
        verdict: Verdict,
    ) -> Option<Literal> {
        let (extremes, tally) = survey.rest?;
        for (one, other) in [
            (extremes.greatest, extremes.least),
            (extremes.least, extremes.greatest),
        ] {
            for present in [true, false] {
                if self.verdict_with(j, tally, (one, Mark::from(present)), (other, Mark::Open))
                    == verdict
                {
                    return Some(Literal {
                        statement: one.statement,
                        present,
                    });
                }
            }
        }
        None
    }
}
