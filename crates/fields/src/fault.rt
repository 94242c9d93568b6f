ghost use Rattle.std.specs.Prelude.{◌≡◌};
ghost use Rattle.fields.specs.Faults.{cause_number, fault};

/// Why a text is refused.
#[derive(Clone, Copy, Debug, PartialEq, Eq)]
pub enum Cause {
    /// the text is empty or too long
    Size = 1,
    /// a line of no known form, or byte 10 is missing
    Form = 2,
    /// a number field is not one to five digits
    Malformed = 3,
    /// a number outside its range
    Range = 4,
    /// a record repeated
    Repeated = 5,
    /// the caller's list, or its limit, is full
    Full = 6,
    /// an equation out of turn, missing or extra
    Turn = 7,
}

impl Cause {
    /// The number by which the cause is reported.
    pub fn number(self) -> u8
        ensures { result ≡ cause_number self }
    {
        self as u8
    }

    /// The fault of this cause at field `field` of line `line`.
    pub fn at(self, line: usize, field: usize) -> Fault
        ensures { result ≡ fault self line field }
    {
        Fault {
            cause: self,
            line,
            field,
        }
    }
}

/// Why and where a text is refused. Lines and fields count from 1; field 0 is the whole line, line 0 the whole text.
#[derive(Clone, Copy, Debug, PartialEq, Eq)]
pub struct Fault {
    pub cause: Cause,
    pub line: usize,
    pub field: usize,
}
