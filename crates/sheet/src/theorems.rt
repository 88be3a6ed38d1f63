ghost use Rattle.sheet.specs.Theorems.{LedgerExamples, LedgersStand, SheetNumbers};

// Theorems that belong to no call: each function says only that its theorem is proved.

// Whatever the visits, at most 64 findings stand, each of one of the statements, and no two of the same.
fn ledgers_stand()
    ensures { LedgersStand }
{}

// Ledgers of some visits, worked out.
fn ledger_examples()
    ensures { LedgerExamples }
{}

// What a call on a sheet can be refused by, by number and layer.
fn sheet_numbers()
    ensures { SheetNumbers }
{}
