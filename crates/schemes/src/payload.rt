// What a member signs for a subject.
ghost use Rattle.schemes.specs.Payloads.{Signable};
ghost use Rattle.schemes.specs.Subjects.{edition};

use crate::namespace::Namespace;
use crate::subject::{Edition, Subject};
use keys::union_unique;
use refusals::Refusal;

/// Writes a subject's payload under a base namespace at the front of a buffer, and gives its length.
pub fn write_payload<B: Subject>(subject: &B, base: &[u8], out: &mut [u8]) -> Result<usize, Refusal>
    ensures { Signable B.Namespace.Namespace.derived base.now (B.Subject.said subject.now) out.old out.new result }
{
    let namespace = B::Namespace::derive(base)?;
    union_unique(subject.namespace(&namespace), subject.message(), out)
}

impl Edition {
    /// The same of an edition: the base gets its `-E`.
    // A call of its own, so that a contract speaks of an edition and of `-E` at once: without it an
    // edition signed under the plain namespace would be proved.
    pub fn write_payload(&self, base: &[u8], out: &mut [u8]) -> Result<usize, Refusal>
        ensures { Signable edition base.now (record { message = self.now.bytes }) out.old out.new result }
    {
        write_payload(self, base, out)
    }
}
