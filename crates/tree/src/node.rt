// Indices into tables, and no boxes: it is a rule of the project that a condition is evaluated in its table, by parts that stand below,
// and a routine keeps a row for each entry, for which boxes would want a second tree of the same shape.

// An entry of a table of conditions; its parts are entries below it.
#[derive(Clone, Copy)]
pub enum Clause {
    True,
    False,
    Fact(u8),
    Not(u16),
    And(u16, u16),
    Or(u16, u16),
}

// An entry of a table of programs; its parts are entries below it, and a test's condition is an entry of the table of conditions.
#[derive(Clone, Copy)]
pub enum Node {
    Act(u8),
    Test(u16),
    Seq(u16, u16),
    Alt(u16, u16),
    Star(u16),
}
