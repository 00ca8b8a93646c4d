// A bundle's entries, read for a verifier.
ghost use Rattle.std.specs.Prelude.{◌≡◌, map};
ghost use Rattle.refusals.specs.Results.{map_ok, map_err};
ghost use Rattle.refusals.specs.Faults.{raised};
ghost use Rattle.bundle.specs.Places.{held_by};
ghost use Rattle.bundle.specs.Verdicts.{seen};

use crate::layout::Bundle;
use refusals::{BundleFault, Placed};
use schemes::{Certificate, Entries, Entry, Verifier};

#[derive(Clone, Copy)]
pub struct BundleEntries<'a, V> {
    bundle: &'a Bundle<'a>,
    verifier: &'a V,
}

impl<'a, V> BundleEntries<'a, V> {
    pub fn new(bundle: &'a Bundle<'a>, verifier: &'a V) -> BundleEntries<'a, V>
        ensures { (result.bundle.now ≡ bundle.now) × (result.verifier.now ≡ verifier.now) }
    {
        BundleEntries { bundle, verifier }
    }
}

// Reads a certificate that begins at a place of the bundle.
fn read_raised<V: Verifier>(
    verifier: &V,
    bytes: &[u8],
    at: usize,
) -> Result<V::Certificate, BundleFault>
    ensures { map_ok V.Certificate.Certificate.parts result ≡ map_err (raised at) ((V.Verifier.judging verifier.now).reads (V.Verifier.judging verifier.now).members bytes.now) }
{
    let certificate = verifier.read(bytes, verifier.members());
    Ok(certificate.map_err(|fault| Placed { fault, at })?)
}

impl<'a, V: Verifier> Entries for BundleEntries<'a, V> {
    type Certificate = V::Certificate;

    ghost entries = { λ s. map (seen (V.Verifier.judging s.verifier.now)) (held_by s.bundle.now) };

    fn len(&self) -> usize {
        self.bundle.count()
    }

    fn message(&self, place: usize) -> Option<&[u8]> {
        self.bundle.raw(place).map(|raw| raw.message)
    }

    fn entry(&self, place: usize) -> Option<Entry<'_, V::Certificate>> {
        self.bundle.raw(place).map(|raw| Entry {
            message: raw.message,
            certificate: read_raised(self.verifier, raw.certificate, raw.place),
        })
    }
}
