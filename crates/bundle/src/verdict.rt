// What is said of an entry.
use refusals::BundleFault;

// Not a `Result`: in a listing of verdicts an `Err` would read as a refused call.
#[derive(Clone, Copy, PartialEq, Eq)]
pub enum Verdict {
    Accepted,
    Rejected,
    /// The certificate could not be read.
    Faulty(BundleFault),
}
