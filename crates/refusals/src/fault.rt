// Faults of bytes: of a bitmap, of a certificate, of a bundle. Each is carried into the next by `From`.
ghost use Rattle.std.specs.Prelude.{◌≡◌};
ghost use Rattle.refusals.specs.Faults.{layered, raised};

#[derive(Clone, Copy, PartialEq, Eq)]
pub enum FaultKind {
    /// The input ends before the field does.
    EndOfBuffer = 8,
    /// A length or a count above its limit.
    InvalidLength = 9,
    /// Bytes that are no writing of the field.
    Invalid = 10,
    /// Bytes left over.
    ExtraData = 11,
}

#[derive(Clone, Copy, PartialEq, Eq)]
pub enum Layer {
    Bitmap = 1,
    Signatures = 2,
    Certificate = 3,
    Bundle = 4,
}

/// The place is counted from the first byte of the bitmap's length.
#[derive(Clone, Copy, PartialEq, Eq)]
pub struct BitmapFault {
    pub kind: FaultKind,
    pub place: usize,
}

/// The place is counted from the certificate's first byte.
#[derive(Clone, Copy, PartialEq, Eq)]
pub struct CertificateFault {
    pub kind: FaultKind,
    pub layer: Layer,
    pub place: usize,
}

/// The place is counted from the bundle's first byte.
// Alike in form to a certificate's fault, and a type of its own by a rule of the project, so that a place that was not raised does not fit.
// One type with a marker, or inside two newtypes, would put a constructor in each literal and a `.0` at each use.
#[derive(Clone, Copy, PartialEq, Eq)]
pub struct BundleFault {
    pub kind: FaultKind,
    pub layer: Layer,
    pub place: usize,
}

/// A certificate's fault, and where in a bundle the certificate begins.
#[derive(Clone, Copy, PartialEq, Eq)]
pub struct Placed {
    pub fault: CertificateFault,
    pub at: usize,
}

// A certificate begins with its bitmap, so the place stays.
impl From<BitmapFault> for CertificateFault {
    ghost from_gives = { λ f r. r ≡ layered f };

    fn from(fault: BitmapFault) -> CertificateFault {
        CertificateFault {
            kind: fault.kind,
            layer: Layer::Bitmap,
            place: fault.place,
        }
    }
}

impl From<Placed> for BundleFault {
    ghost from_gives = { λ p r. r ≡ raised p.at p.fault };

    fn from(placed: Placed) -> BundleFault {
        let fault = placed.fault;
        BundleFault {
            kind: fault.kind,
            layer: fault.layer,
            place: placed.at.saturating_add(fault.place),
        }
    }
}
