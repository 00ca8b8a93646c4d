// Judges the bundle of standard input with roll W's list scheme, and prints the verdicts.
#![tactic(auto)]

ghost use Rattle.std.specs.Prelude.{◌≡◌, ◌≤◌, length, take, IfOk, IfSome};

use bundle::Judgement;
use refusals::MAX_INPUT;
use roll_w::roll_of_w;
use std::io;
use std::io::Read;

/// A byte more than the limit, so that a longer input is refused.
const ROOM: usize = MAX_INPUT + 1;

// Reads to the end, and no more than there is room for.
// Each read is lent all the room that is left, and nothing is allocated: no answer depends on memory.
fn read_input<'a, R: Read>(reader: &mut R, room: &'a mut [u8; ROOM]) -> io::Result<&'a [u8]>
    ensures few { IfOk result (λ input. length input.now ≤ ROOM) }
    ensures bytes { IfOk result (λ input. IfSome (R.remaining reader.old) (λ bytes. input.now ≡ take ROOM bytes)) }
{
    let mut len = 0;
    for _ in 0..room.len() {
        let more = reader.read(&mut room[len..])?;
        if more == 0 {
            break;
        }
        len += more;
    }
    Ok(&room[..len])
}

fn main(rt: HostRuntime) -> io::Result<()> {
    let mut room = [0; ROOM];
    let input = read_input(&mut rt.stdin(), &mut room)?;
    rt.print(Judgement::of(&roll_of_w(), input))
}

#[cfg(test)]
mod tests {
    use super::*;
    use bundle::{Line, RefusedLine, Verdict};
    use refusals::{BundleFault, FaultKind, Layer, Refusal};
    use std::fmt;
    use std::process::Abort;
    use std::test::Fail;

    // A fault far down the last entry: the longest line.
    const FAULT: BundleFault = BundleFault {
        kind: FaultKind::ExtraData,
        layer: Layer::Certificate,
        place: 65_535,
    };

    fn shows<D: fmt::Display + Drop>(
        rt: &(impl Abort + AllocGlobal),
        line: D,
        text: &str,
    ) -> Result<(), Fail> {
        assert_eq!(rt; format!(in rt.alloc(); "{line}")?.as_str(), text);
        Ok(())
    }

    fn refused(refusal: Refusal) -> RefusedLine {
        RefusedLine { refusal }
    }

    // Contracts pin the text of each line; that a line is written at all is seen here.
    #[test]
    fn lines(rt: HostRuntime) -> Result<(), Fail> {
        shows(
            &rt,
            Line {
                number: 0,
                verdict: Verdict::Accepted,
            },
            "0 true",
        )?;
        shows(
            &rt,
            Line {
                number: 17,
                verdict: Verdict::Rejected,
            },
            "17 false",
        )?;
        shows(
            &rt,
            Line {
                number: 255,
                verdict: Verdict::Faulty(FAULT),
            },
            "255 false 11 3 65535",
        )?;
        shows(
            &rt,
            refused(Refusal::SmallBuffer { needed: 3 }),
            "refused 5 3",
        )?;
        shows(&rt, refused(Refusal::BadRoll { index: 64 }), "refused 7 64")?;
        let end = Refusal::EndOfBuffer {
            layer: Layer::Bundle,
            place: 0,
        };
        shows(&rt, refused(end), "refused 8 4 0")
    }
}
