ghost use Rattle.daybook.specs.Examples.{Examples};

// Some lines of a journal are read, and some entries told, as is expected of them.
fn examples()
    ensures { Examples }
{}
