/// How a pair turns once operands of its equation are taken: after the last, if it may turn then, or at the first. No
/// `Option<bool>`: the names say what is counted.
#[derive(Clone, Copy, Debug)]
pub enum Decision {
    Counted { may_turn: bool },
    AtOnce,
}

/// How the pair of a new book starts: with a count of operands, or, where no operand is counted, with whether it turns
/// before any pair is taken.
#[derive(Clone, Copy, Debug)]
pub enum Opening {
    Counted { operands: usize, may_turn: bool },
    AtOnce { turns: bool },
}
