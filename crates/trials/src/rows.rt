// Sets of statements, and the order of accounts. The rules of a trial speak of fewer than 32 statements.

// A set of statements with numbers below 32.
#[derive(Clone, Copy, PartialEq, Eq, Debug)]
pub(crate) struct Row {
    pub marks: u32,
}

// How many statements a row can tell apart.
const WIDTH: u16 = 32;

// How many sets there are of fewer than 32 statements.
pub(crate) fn row_count(statements: u16) -> u32 {
    1u32 << u32::from(statements & 31)
}

impl Row {
    pub(crate) const EMPTY: Row = Row { marks: 0 };

    pub(crate) fn has(self, statement: u16) -> bool {
        statement < WIDTH && (self.marks >> u32::from(statement & 31)) & 1 == 1
    }

    pub(crate) fn with(self, statement: u16) -> Row {
        if statement >= WIDTH {
            return self;
        }
        let mark = 1u32 << u32::from(statement & 31);
        Row {
            marks: self.marks | mark,
        }
    }

    // The set of these statements.
    pub(crate) fn of(statements: &[u16]) -> Row {
        let mut row = Row::EMPTY;
        for statement in statements {
            row = row.with(*statement);
        }
        row
    }

    // What is in both.
    pub(crate) fn within(self, other: Row) -> Row {
        Row {
            marks: self.marks & other.marks,
        }
    }

    // What is in one of them or in both.
    pub(crate) fn joined(self, other: Row) -> Row {
        Row {
            marks: self.marks | other.marks,
        }
    }

    pub(crate) fn is_part_of(self, whole: Row) -> bool {
        self.marks & !whole.marks == 0
    }

    pub(crate) fn meets(self, other: Row) -> bool {
        self.marks & other.marks != 0
    }

    pub(crate) fn count(self) -> u16 {
        let mut count = 0u16;
        for statement in 0..WIDTH {
            if self.has(statement) {
                count = count.saturating_add(1);
            }
        }
        count
    }

    // Whether it comes before another one: at the first statement in which they differ, it has it.
    pub(crate) fn precedes(self, other: Row) -> bool {
        for statement in 0..WIDTH {
            if self.has(statement) != other.has(statement) {
                return self.has(statement);
            }
        }
        false
    }
}

// The first of some rows in the order of accounts.
pub(crate) fn first_row(rows: &[Row]) -> Option<Row> {
    let mut first: Option<Row> = None;
    for row in rows {
        match first {
            Some(other) if !row.precedes(other) => {}
            _ => first = Some(*row),
        }
    }
    first
}
