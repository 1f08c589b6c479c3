//! Parts of containers, as octets, for callers that read no DER themselves: of signed data (RFC 5652), and of PKCS #12
//! files (RFC 7292).
#![tactic(auto)]

ghost use Rattle.std.specs.Prelude.{◌≡◌};
ghost use Rattle.container_parts.specs.Inputs.{GivesPart};
ghost use Rattle.container_parts.specs.Parts.{parts, meaning_of};

pub mod copies;
pub mod macs;
pub mod signed;
pub mod stores;

pub use input_ranges::Refusal;
pub use macs::{MacPart, mac_iterations, mac_part, part_of_mac};
pub use signed::{SignedPart, SignerPart, signed_part};
use std::alloc::Global;
pub use stores::{StorePart, store_part};

/// A part of a container.
#[derive(Clone, Copy, Debug, PartialEq, Eq)]
pub enum ContainerPart {
    /// Of signed data.
    Signed(SignedPart),
    /// Of what a PKCS #12 file holds.
    Store(StorePart),
    /// Of the MAC of a PKCS #12 file.
    Mac(MacPart),
}

impl ContainerPart {
    /// All parts, in the order of their numbers in `der.h`.
    pub fn all() -> &'static [ContainerPart]
        ensures { result.now ≡ parts }
    {
        &[
            ContainerPart::Signed(SignedPart::HashedContent),
            ContainerPart::Signed(SignedPart::Certificate),
            ContainerPart::Signed(SignedPart::OfSigner(SignerPart::SignedAttributes)),
            ContainerPart::Signed(SignedPart::OfSigner(SignerPart::Issuer)),
            ContainerPart::Signed(SignedPart::OfSigner(SignerPart::SerialNumber)),
            ContainerPart::Signed(SignedPart::OfSigner(SignerPart::KeyIdentifier)),
            ContainerPart::Signed(SignedPart::OfSigner(SignerPart::DigestAlgorithm)),
            ContainerPart::Signed(SignedPart::OfSigner(SignerPart::SignatureAlgorithm)),
            ContainerPart::Signed(SignedPart::OfSigner(SignerPart::Signature)),
            ContainerPart::Store(StorePart::Certificate),
            ContainerPart::Store(StorePart::Key),
            ContainerPart::Store(StorePart::EncryptedKey),
            ContainerPart::Store(StorePart::WholeBag),
            ContainerPart::Mac(MacPart::DigestAlgorithm),
            ContainerPart::Mac(MacPart::Digest),
            ContainerPart::Mac(MacPart::Salt),
        ]
    }
}

/// The part with that index, from 0 on, of the container that the input is, with at most 64 levels of nesting, as
/// octets. `None` where it has none. Signed data have one hashed content, and a MAC has one of each part, whatever the
/// index is. `Refused` says why the input doesn't read and where, or, at the place 0, `TooLong` of an encoding, or
/// `Memory`; `Part` is said of stores alone, as by `bag_ranges`, and `NoRange` never. The input is read anew by each call.
pub fn container_part(
    alloc: Global,
    part: ContainerPart,
    index: usize,
    input: &[u8],
) -> Result<Option<Vec<u8>>, Refusal>
    ensures { GivesPart (meaning_of part index) input.now result }
{
    match part {
        ContainerPart::Signed(part) => signed_part(alloc, part, index, input),
        ContainerPart::Store(part) => store_part(alloc, part, index, input),
        ContainerPart::Mac(part) => mac_part(alloc, part, input),
    }
}
