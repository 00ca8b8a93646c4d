// All that a program prints for an input, with room of its own for the verdicts.
ghost use Rattle.std.specs.Prelude.{◌≡◌, replicate, Some};
ghost use Rattle.refusals.specs.Limits.{max_certificates};
ghost use Rattle.bundle.specs.Answer.{answer_text, printed};
ghost use Rattle.bundle.specs.Verdicts.{admitted, Concluded};
ghost use Rattle.bundle.specs.declared.verdict.Verdict.TheVariants.{Rejected};

use crate::answer::Answer;
use crate::input::judge_input;
use crate::verdict::Verdict;
use refusals::{MAX_CERTIFICATES, Refusal};
use schemes::Verifier;
use std::fmt;

/// An answer that holds its verdicts; there is room for those of any bundle.
// A count beside the room: `judge` writes into a slice, and `concluded` speaks of all its rows.
#[derive(Clone, Copy, PartialEq, Eq)]
pub struct Judgement {
    judged: Result<usize, Refusal>,
    verdicts: [Verdict; MAX_CERTIFICATES],
}

impl Judgement {
    /// Judges an input.
    #[tactic(auto, using(crate::proofs::Printing::concluded_text))]
    pub fn of<V: Verifier>(verifier: &V, input: &[u8]) -> Judgement
        ensures concluded { Concluded (V.Verifier.judging verifier.now) input.now (replicate max_certificates Rejected) result.verdicts result.judged }
        ensures text { answer_text result.judged result.verdicts ≡ printed (V.Verifier.judging verifier.now) max_certificates (admitted input.now) }
    {
        let mut verdicts = [Verdict::Rejected; MAX_CERTIFICATES];
        let judged = judge_input(verifier, input, &mut verdicts);
        Judgement { judged, verdicts }
    }
}

impl fmt::Display for Judgement {
    ghost output = { λ j. Some (answer_text j.judged j.verdicts) };

    fn fmt<W: fmt::Write>(&self, f: &mut fmt::Formatter<W>) -> fmt::Result {
        let answer = Answer {
            judged: self.judged,
            verdicts: &self.verdicts,
        };
        answer.fmt(f)
    }
}
