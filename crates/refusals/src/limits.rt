// The limits.
ghost use Rattle.std.specs.Prelude.{◌≡◌, [], ◌∷◌};
ghost use Rattle.refusals.specs.Limits.{max_members, max_namespace, max_message, max_attestations, max_certificates, max_key, max_signature, max_input, max_payload};

/// The most members of a roll, and the longest bitmap.
pub const MAX_MEMBERS: usize = 64;
/// The most bytes of a scheme's base namespace.
pub const MAX_NAMESPACE: usize = 64;
/// The most bytes of a message.
pub const MAX_MESSAGE: usize = 1024;
/// The most attestations of one call.
pub const MAX_ATTESTATIONS: usize = 128;
/// The most certificates of one call or bundle.
pub const MAX_CERTIFICATES: usize = 256;
/// The most bytes of a key.
pub const MAX_KEY: usize = 32;
/// The most bytes of a signature.
pub const MAX_SIGNATURE: usize = 64;
/// The most bytes of a program's input.
pub const MAX_INPUT: usize = 65_536;
/// The most bytes of a payload within the limits: a length in one byte, a derived namespace, a message.
pub const MAX_PAYLOAD: usize = 1_091;

/// All limits in the order above; its contract ties each to the number that contracts speak of.
pub fn limits_stand() -> [usize; 9]
    ensures { result ≡ max_members ∷ max_namespace ∷ max_message ∷ max_attestations ∷ max_certificates ∷ max_key ∷ max_signature ∷ max_input ∷ max_payload ∷ [] }
{
    [
        MAX_MEMBERS,
        MAX_NAMESPACE,
        MAX_MESSAGE,
        MAX_ATTESTATIONS,
        MAX_CERTIFICATES,
        MAX_KEY,
        MAX_SIGNATURE,
        MAX_INPUT,
        MAX_PAYLOAD,
    ]
}
