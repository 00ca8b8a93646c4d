// A program's input, judged.
ghost use Rattle.std.specs.Prelude.{◌≡◌, ◌<◌, ◌≤◌, length, MatchResult};
ghost use Rattle.refusals.specs.Limits.{max_input};
ghost use Rattle.bundle.specs.Layout.{fault as fault_of};
ghost use Rattle.bundle.specs.Verdicts.{Concluded};

use crate::entries::BundleEntries;
use crate::judging::judge;
use crate::layout::Bundle;
use crate::reader::fault;
use crate::verdict::Verdict;
use refusals::{BundleFault, FaultKind, MAX_INPUT, Refusal};
use schemes::{Entries, Verifier};

/// The input, unless it is longer than its limit.
pub fn admit(input: &[u8]) -> Result<&[u8], BundleFault>
    ensures { MatchResult result (λ b. (length input.now ≤ max_input) × (b.now ≡ input.now)) (λ f. (max_input < length input.now) × (f ≡ fault_of FaultKind.InvalidLength max_input)) }
{
    if input.len() > MAX_INPUT {
        return Err(fault(FaultKind::InvalidLength, MAX_INPUT));
    }
    Ok(input)
}

/// Reads a bundle and judges its entries.
pub fn judge_input<V: Verifier>(
    verifier: &V,
    input: &[u8],
    verdicts: &mut [Verdict],
) -> Result<usize, Refusal>
    ensures { Concluded (V.Verifier.judging verifier.now) input.now verdicts.old verdicts.new result }
{
    let bundle = Bundle::read(admit(input)?)?;
    judge(verifier, &BundleEntries::new(&bundle, verifier), verdicts)
}
