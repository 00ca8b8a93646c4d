// Why a call is refused: a number, and one or two values.
ghost use Rattle.std.specs.Prelude.{◌≡◌, [], ◌∷◌};
ghost use Rattle.refusals.specs.Numbers.{number as number_of, values as values_of, refused, listed, kind_number, layer_number};

use crate::fault::{BundleFault, CertificateFault, FaultKind, Layer};

// Each refusal is a variant with its number, by a rule of the project; so the four faults of bytes are not one variant with a kind.
#[derive(Clone, Copy, PartialEq, Eq)]
pub enum Refusal {
    /// A member index not below the number of members.
    UnknownSigner { index: u32 },
    /// The member is repeated, or has a mark already.
    DuplicateSigner { index: u32 },
    /// A signature of another width, or one that does not decode.
    MalformedSignature { index: u32 },
    /// Fewer attestations than the quorum.
    InsufficientAttestations { required: u32, found: u32 },
    /// A lent buffer or listing is too short.
    SmallBuffer { needed: usize },
    /// A namespace, a message or a list is longer than its limit.
    TooMany { limit: usize },
    /// The first bad member of a roll.
    BadRoll { index: usize },
    EndOfBuffer { layer: Layer, place: usize },
    InvalidLength { layer: Layer, place: usize },
    Invalid { layer: Layer, place: usize },
    ExtraData { layer: Layer, place: usize },
}

/// The values of a refusal, in order.
#[derive(Clone, Copy, PartialEq, Eq)]
pub struct Values {
    pub first: usize,
    pub second: Option<usize>,
}

impl Layer {
    pub fn number(self) -> u8
        ensures { result ≡ layer_number self }
    {
        self as u8
    }
}

impl FaultKind {
    pub fn number(self) -> u8
        ensures { result ≡ kind_number self }
    {
        self as u8
    }

    // The refusal that a fault of this kind becomes.
    fn refusal(self, layer: Layer, place: usize) -> Refusal
        ensures { result ≡ refused self layer place }
    {
        match self {
            FaultKind::EndOfBuffer => Refusal::EndOfBuffer { layer, place },
            FaultKind::InvalidLength => Refusal::InvalidLength { layer, place },
            FaultKind::Invalid => Refusal::Invalid { layer, place },
            FaultKind::ExtraData => Refusal::ExtraData { layer, place },
        }
    }
}

impl Refusal {
    // No plainer: `as` gives no number where variants have fields.
    pub fn number(self) -> u8
        ensures { result ≡ number_of self }
    {
        match self {
            Refusal::UnknownSigner { .. } => 1,
            Refusal::DuplicateSigner { .. } => 2,
            Refusal::MalformedSignature { .. } => 3,
            Refusal::InsufficientAttestations { .. } => 4,
            Refusal::SmallBuffer { .. } => 5,
            Refusal::TooMany { .. } => 6,
            Refusal::BadRoll { .. } => 7,
            Refusal::EndOfBuffer { .. } => 8,
            Refusal::InvalidLength { .. } => 9,
            Refusal::Invalid { .. } => 10,
            Refusal::ExtraData { .. } => 11,
        }
    }

    pub fn values(self) -> Values
        ensures { listed result ≡ values_of self }
    {
        match self {
            Refusal::UnknownSigner { index }
            | Refusal::DuplicateSigner { index }
            | Refusal::MalformedSignature { index } => one(index as usize),
            Refusal::InsufficientAttestations { required, found } => two(
                required as usize,
                found as usize,
            ),
            Refusal::SmallBuffer { needed } => one(needed),
            Refusal::TooMany { limit } => one(limit),
            Refusal::BadRoll { index } => one(index),
            Refusal::EndOfBuffer { layer, place }
            | Refusal::InvalidLength { layer, place }
            | Refusal::Invalid { layer, place }
            | Refusal::ExtraData { layer, place } => two(layer.number() as usize, place),
        }
    }
}

fn one(value: usize) -> Values
    ensures { listed result ≡ value ∷ [] }
{
    Values {
        first: value,
        second: None,
    }
}

fn two(first: usize, second: usize) -> Values
    ensures { listed result ≡ first ∷ second ∷ [] }
{
    Values {
        first,
        second: Some(second),
    }
}

// One `From` for each type of fault; no macro of the repository may write them, and what both do is `refusal`.
impl From<CertificateFault> for Refusal {
    ghost from_gives = { λ f r. r ≡ refused f.kind f.layer f.place };

    fn from(fault: CertificateFault) -> Refusal {
        fault.kind.refusal(fault.layer, fault.place)
    }
}

impl From<BundleFault> for Refusal {
    ghost from_gives = { λ f r. r ≡ refused f.kind f.layer f.place };

    fn from(fault: BundleFault) -> Refusal {
        fault.kind.refusal(fault.layer, fault.place)
    }
}
