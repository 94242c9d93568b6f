ghost use Rattle.std.specs.Prelude.{◌≡◌, Some, Ok, Err, MatchResult};
ghost use Rattle.job.specs.Parts.{part_number, fault_text, job_fault, in_part};

use fields::fault::Fault;
use std::fmt;

/// The part of a job that a fault is in.
#[derive(Clone, Copy, Debug, PartialEq, Eq)]
pub enum Part {
    Whole = 0,
    Flow = 1,
    Book = 2,
}

impl Part {
    /// The number by which the part is reported.
    pub fn number(self) -> u8
        ensures { result ≡ part_number self }
    {
        self as u8
    }

    /// The result with its fault, if any, placed in this part.
    pub fn hold<T>(self, res: Result<T, Fault>) -> Result<T, JobFault>
        ensures { result ≡ in_part self res }
    {
        res.map_err(|fault| JobFault { part: self, fault })
    }
}

/// Why and where a job is refused.
#[derive(Clone, Copy, Debug, PartialEq, Eq)]
pub struct JobFault {
    pub part: Part,
    pub fault: Fault,
}

impl fmt::Display for JobFault {
    ghost output = { λ e. Some (fault_text e) };

    /// The line that reports the fault, without the byte 10 that ends it.
    fn fmt<W: fmt::Write>(&self, f: &mut fmt::Formatter<W>) -> fmt::Result {
        let part = self.part.number();
        let Fault { cause, line, field } = self.fault;
        write!(f, "E,{part},{},{line},{field}", cause.number())
    }
}
