// All that a program prints for an input.
ghost use Rattle.std.specs.Prelude.{◌≡◌, length, Some};
ghost use Rattle.std.specs.Fmt.{WritesOnOk};
ghost use Rattle.bundle.specs.Answer.{lines_from, answer_text, printed};
ghost use Rattle.bundle.specs.Verdicts.{admitted, Concluded};

use crate::input::judge_input;
use crate::text::{Line, RefusedLine};
use crate::verdict::Verdict;
use refusals::Refusal;
use schemes::Verifier;
use std::fmt;

fn write_lines<W: fmt::Write>(f: &mut fmt::Formatter<W>, verdicts: &[Verdict]) -> fmt::Result
    ensures { WritesOnOk W.Write.write_str_gives f.old result (lines_from 0 verdicts.now) f.new }
{
    for (number, &verdict) in verdicts.iter().enumerate() {
        let line = Line { number, verdict };
        writeln!(f, "{line}")?;
    }
    Ok(())
}

/// The lines of the first verdicts, or the line of a refusal.
// The whole room and not the listed part: `concluded` says that what lies behind it is unchanged.
#[derive(Clone, Copy)]
pub struct Answer<'a> {
    pub judged: Result<usize, Refusal>,
    pub verdicts: &'a [Verdict],
}

impl<'a> Answer<'a> {
    /// Judges an input, with room for the verdicts.
    #[tactic(auto, using(crate::proofs::Printing::concluded_text))]
    pub fn of<V: Verifier>(verifier: &V, input: &[u8], room: &'a mut [Verdict]) -> Answer<'a>
        ensures concluded { Concluded (V.Verifier.judging verifier.now) input.now room.old result.verdicts.now result.judged }
        ensures text { answer_text result.judged result.verdicts.now ≡ printed (V.Verifier.judging verifier.now) (length room.old) (admitted input.now) }
    {
        let judged = judge_input(verifier, input, room);
        Answer {
            judged,
            verdicts: room,
        }
    }
}

impl<'a> fmt::Display for Answer<'a> {
    ghost output = { λ a. Some (answer_text a.judged a.verdicts.now) };

    fn fmt<W: fmt::Write>(&self, f: &mut fmt::Formatter<W>) -> fmt::Result {
        match self.judged {
            Ok(count) => write_lines(f, &self.verdicts[..count.min(self.verdicts.len())]),
            Err(refusal) => {
                let line = RefusedLine { refusal };
                writeln!(f, "{line}")
            }
        }
    }
}
