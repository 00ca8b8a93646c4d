// Judging entries.
ghost use Rattle.std.specs.Prelude.{◌≡◌, ◌≤◌, not, length};
ghost use Rattle.refusals.specs.Limits.{max_message};
ghost use Rattle.refusals.specs.Results.{map_ok};
ghost use Rattle.bundle.specs.Verdicts.{Judged, some_long, decided};

use crate::verdict::Verdict;
use refusals::{MAX_CERTIFICATES, MAX_MESSAGE, Refusal};
use schemes::{Certificate, Entries, Entry, Message, Subject, Verifier};

// Whether no message is longer than its limit.
fn messages_fit<E: Entries>(entries: &E) -> bool
    ensures { result ≡ not (some_long (E.Entries.entries entries.now)) }
{
    (0..entries.len()).all(|place| {
        entries
            .message(place)
            .is_none_or(|message| message.len() <= MAX_MESSAGE)
    })
}

fn verdict<V: Verifier>(verifier: &V, entry: &Entry<'_, V::Certificate>) -> Verdict
    requires { length entry.now.message.now ≤ max_message }
    ensures { result ≡ decided (V.Verifier.judging verifier.now) entry.now.message.now (map_ok V.Certificate.Certificate.parts entry.now.certificate) }
{
    let subject: Message<'_, V::Namespace> = Message::new(entry.message);
    match &entry.certificate {
        Err(fault) => Verdict::Faulty(*fault),
        Ok(certificate) if verifier.verify_certificate(&subject, certificate).unwrap() => {
            Verdict::Accepted
        }
        Ok(_) => Verdict::Rejected,
    }
}

/// Judges each entry; the verdicts stand at the front of the listing, in the order of the entries.
pub fn judge<V: Verifier, E: Entries<Certificate = V::Certificate>>(
    verifier: &V,
    entries: &E,
    verdicts: &mut [Verdict],
) -> Result<usize, Refusal>
    ensures { Judged (V.Verifier.judging verifier.now) (E.Entries.entries entries.now) verdicts.old verdicts.new result }
{
    if !messages_fit(entries) {
        return Err(Refusal::TooMany { limit: MAX_MESSAGE });
    }
    let count = entries.len();
    if count > MAX_CERTIFICATES {
        return Err(Refusal::TooMany {
            limit: MAX_CERTIFICATES,
        });
    }
    if verdicts.len() < count {
        return Err(Refusal::SmallBuffer { needed: count });
    }
    for (place, slot) in verdicts[..count].iter_mut().enumerate() {
        *slot = verdict(verifier, &entries.entry(place).unwrap());
    }
    Ok(count)
}
