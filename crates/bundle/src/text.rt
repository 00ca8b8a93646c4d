// The lines that a program prints.
ghost use Rattle.std.specs.Prelude.{Some};
ghost use Rattle.bundle.specs.Text.{line_text, refused_text};

use crate::verdict::Verdict;
use refusals::Refusal;
use std::fmt;

/// The line of an entry.
#[derive(Clone, Copy, PartialEq, Eq)]
pub struct Line {
    pub number: usize,
    pub verdict: Verdict,
}

impl fmt::Display for Line {
    ghost output = { λ l. Some (line_text l.number l.verdict) };

    fn fmt<W: fmt::Write>(&self, f: &mut fmt::Formatter<W>) -> fmt::Result {
        let number = self.number;
        match self.verdict {
            Verdict::Accepted => write!(f, "{number} true"),
            Verdict::Rejected => write!(f, "{number} false"),
            Verdict::Faulty(fault) => {
                let kind = fault.kind.number();
                let layer = fault.layer.number();
                let place = fault.place;
                write!(f, "{number} false {kind} {layer} {place}")
            }
        }
    }
}

/// The one line of a refused input.
#[derive(Clone, Copy, PartialEq, Eq)]
pub struct RefusedLine {
    pub refusal: Refusal,
}

impl fmt::Display for RefusedLine {
    ghost output = { λ l. Some (refused_text l.refusal) };

    fn fmt<W: fmt::Write>(&self, f: &mut fmt::Formatter<W>) -> fmt::Result {
        let number = self.refusal.number();
        let values = self.refusal.values();
        let first = values.first;
        match values.second {
            Some(second) => write!(f, "refused {number} {first} {second}"),
            None => write!(f, "refused {number} {first}"),
        }
    }
}
