// Where the numbers of a rule table stand, as format 1 describes it.

// An area of a table: the most records that it may have, and the bytes of a record.
#[derive(Clone, Copy)]
pub(crate) struct Shape {
    pub most: usize,
    pub size: usize,
    // Where the header has its count; its offset stands two bytes behind.
    pub count_at: usize,
}

pub(crate) const HEADER: usize = 28;

pub(crate) const STATEMENTS: Shape = Shape {
    most: 128,
    size: 4,
    count_at: 4,
};

pub(crate) const RULES: Shape = Shape {
    most: 1024,
    size: 8,
    count_at: 8,
};

pub(crate) const LITERALS: Shape = Shape {
    most: 8192,
    size: 1,
    count_at: 12,
};

pub(crate) const AGGREGATES: Shape = Shape {
    most: 1024,
    size: 12,
    count_at: 16,
};

pub(crate) const MEMBERS: Shape = Shape {
    most: 2048,
    size: 8,
    count_at: 20,
};

pub(crate) const NAMES: Shape = Shape {
    most: 4096,
    size: 1,
    count_at: 24,
};

// In the order in which they follow each other.
pub(crate) const SHAPES: [Shape; 6] = [STATEMENTS, RULES, LITERALS, AGGREGATES, MEMBERS, NAMES];

// Bytes, with 0 past their end.
#[derive(Clone, Copy)]
pub(crate) struct Image<'a> {
    pub bytes: &'a [u8],
}

impl<'a> Image<'a> {
    pub(crate) fn byte(self, place: usize) -> usize {
        usize::from(self.bytes.get(place).copied().unwrap_or(0))
    }

    // Two bytes, the lowest first.
    pub(crate) fn word(self, place: usize) -> usize {
        let high = self.byte(place.saturating_add(1));
        self.byte(place).saturating_add(high.saturating_mul(256))
    }

    // Four bytes with a sign, the lowest first.
    pub(crate) fn whole(self, place: usize) -> i64 {
        let high = self.word(place.saturating_add(2));
        let low = self.word(place);
        let number = i64::try_from(high.saturating_mul(65_536).saturating_add(low)).unwrap_or(0);
        if number < 2_147_483_648 {
            number
        } else {
            number.saturating_sub(4_294_967_296)
        }
    }

    pub(crate) fn count(self, shape: Shape) -> usize {
        self.word(shape.count_at)
    }

    pub(crate) fn offset(self, shape: Shape) -> usize {
        self.word(shape.count_at.saturating_add(2))
    }

    // Where a record stands.
    pub(crate) fn record_at(self, shape: Shape, number: usize) -> usize {
        let before = number.saturating_mul(shape.size);
        self.offset(shape).saturating_add(before)
    }

    // The bytes of a run among the names; none where there is no such run.
    pub(crate) fn name(self, statement: usize) -> &'a [u8] {
        let at = self.record_at(STATEMENTS, statement);
        let first = self.offset(NAMES).saturating_add(self.word(at));
        let end = first.saturating_add(self.byte(at.saturating_add(2)));
        self.bytes.get(first..end).unwrap_or(&[])
    }
}
