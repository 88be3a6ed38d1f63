// What each kind of a family makes of a bag of weights, by the definition.

#[derive(Clone, Copy, PartialEq, Eq, Debug)]
pub(crate) enum Reckoning {
    House,
    Bench,
}

fn total(weights: &[i32]) -> i64 {
    let mut total = 0i64;
    for weight in weights {
        total = total.saturating_add(i64::from(*weight));
    }
    total
}

fn least(weights: &[i32]) -> Option<i64> {
    weights.iter().min().map(|weight| i64::from(*weight))
}

fn greatest(weights: &[i32]) -> Option<i64> {
    weights.iter().max().map(|weight| i64::from(*weight))
}

fn spread(weights: &[i32]) -> Option<i64> {
    match (greatest(weights), least(weights)) {
        (Some(greatest), Some(least)) => Some(greatest.saturating_sub(least)),
        _ => None,
    }
}

fn count(weights: &[i32]) -> i64 {
    i64::try_from(weights.len()).unwrap_or(i64::MAX)
}

impl Reckoning {
    // How many kinds the family has.
    pub(crate) fn kinds(self) -> u8 {
        match self {
            Reckoning::House => 4,
            Reckoning::Bench => 2,
        }
    }

    // A number, or nothing.
    pub(crate) fn value(self, kind: u8, weights: &[i32]) -> Option<i64> {
        match (self, kind) {
            (Reckoning::House, 0) => Some(count(weights)),
            (Reckoning::House, 1) => Some(total(weights)),
            (Reckoning::House, 2) => least(weights),
            (Reckoning::House, 3) => greatest(weights),
            (Reckoning::Bench, 0) => spread(weights),
            (Reckoning::Bench, 1) => Some(count(weights) % 2),
            _ => None,
        }
    }
}
