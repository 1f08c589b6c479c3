//! The parts of what Authenticode signs.

ghost use Rattle.std.specs.Prelude.{◌≡◌};
ghost use Rattle.asn1_core.specs.Der.{option_value};
ghost use Rattle.content_ranges.specs.IndirectRoutes.{ImageValue, IndirectValue, image_data, indirect_data};
ghost use Rattle.indirect_writers.specs.Written.{image_value, indirect_value};

use crate::bits::BitsRef;
use asn1_borrowed::{Body, ElementRef, OctetsRef};
use asn1_core::prelude::*;
use x509_base::AlgorithmIdentifier;

/// `SPC_PE_IMAGE_DATA_OBJID` (1.3.6.1.4.1.311.2.1.15): the attribute type of indirect data for a program, whose value is
/// `SpcPeImageData`.
pub const PE_IMAGE: [u8; 10] = [0x2B, 0x06, 0x01, 0x04, 0x01, 0x82, 0x37, 0x02, 0x01, 0x0F];

/// `SpcPeImageData ::= SEQUENCE { flags SpcPeImageFlags DEFAULT { includeResources }, file [0] EXPLICIT SpcLink OPTIONAL }`
#[derive(Clone, Copy)]
pub struct ImageData<'a> {
    /// The contents octets of the flags, a BIT STRING: first the count of unused bits. `None` where they are left out, which
    /// means `includeResources`. DER leaves out that default (X.690, 11.5), whether as `07 80` or `05 80`; flags that are given
    /// are written as they are.
    pub flags: Option<&'a [u8]>,
    /// The element in `file`, of any type.
    pub link: Option<&'a [u8]>,
}

type ImageParts<'a> = Maybe<BitsRef<'a>, Maybe<ExplicitContextTag0<ElementRef<'a>>, End>>;

fn bits_if(octets: Option<&[u8]>) -> Option<BitsRef<'_>>
    ensures { option_value (λ x. x.0.now) result ≡ option_value (λ x. x.now) octets.entry }
{
    match octets {
        Some(octets) => Some(BitsRef(octets)),
        None => None,
    }
}

fn element_if(octets: Option<&[u8]>) -> Option<ElementRef<'_>>
    ensures { option_value (λ x. x.0.now) result ≡ option_value (λ x. x.now) octets.entry }
{
    match octets {
        Some(octets) => Some(ElementRef(octets)),
        None => None,
    }
}

fn explicit_if(octets: Option<&[u8]>) -> Option<ExplicitContextTag0<ElementRef<'_>>>
    ensures { option_value (λ x. x.0.0.now) result ≡ option_value (λ x. x.now) octets.entry }
{
    match octets {
        Some(octets) => Some(ExplicitContextTag0(ElementRef(octets))),
        None => None,
    }
}

impl ImageData<'_> {
    fn parts(&self) -> ImageParts<'_>
        ensures { ⟦<ImageParts<'static> as WriteComponents>⟧.value result ≡ image_value self.now }
    {
        Maybe(bits_if(self.flags), Maybe(explicit_if(self.link), End))
    }
}

impl DerSerialize for ImageData<'_> {
    ghost Value = { ImageValue };

    ghost value = { image_value };

    ghost format = { image_data };

    fn put<W: Writer>(&self, w: &mut W) -> Result<(), WriteError> {
        put_within(0x30, &self.parts(), w)
    }

    fn well_formed_at(&self, limit: u8) -> bool {
        self.parts().components_well_formed_at(limit)
    }
}

/// `SpcIndirectDataContent ::= SEQUENCE { data SpcAttributeTypeAndOptionalValue, messageDigest DigestInfo }`
#[derive(Clone, Copy)]
pub struct IndirectData<'a> {
    /// The contents octets of the object identifier in `data`, which says what was hashed.
    pub attribute_type: &'a [u8],
    /// The element of the value in `data`, of any type.
    pub attribute_value: Option<&'a [u8]>,
    pub digest_algorithm: &'a AlgorithmIdentifier,
    /// The octets of the digest.
    pub digest: &'a [u8],
}

type Subject<'a> = Body<Required<KnownOid<'a>, Maybe<ElementRef<'a>, End>>>;

type Digest<'a> = Body<Required<Ref<&'a AlgorithmIdentifier>, Required<OctetsRef<'a>, End>>>;

type IndirectParts<'a> = Required<Subject<'a>, Required<Digest<'a>, End>>;

impl IndirectData<'_> {
    fn parts(&self) -> IndirectParts<'_>
        ensures { ⟦<IndirectParts<'static> as WriteComponents>⟧.value result ≡ indirect_value self.now }
    {
        let subject = Body(Required(
            KnownOid(self.attribute_type),
            Maybe(element_if(self.attribute_value), End),
        ));
        let digest = Body(Required(
            Ref(self.digest_algorithm),
            Required(OctetsRef(self.digest), End),
        ));
        Required(subject, Required(digest, End))
    }
}

impl DerSerialize for IndirectData<'_> {
    ghost Value = { IndirectValue };

    ghost value = { indirect_value };

    ghost format = { indirect_data };

    fn put<W: Writer>(&self, w: &mut W) -> Result<(), WriteError> {
        put_within(0x30, &self.parts(), w)
    }

    fn well_formed_at(&self, limit: u8) -> bool {
        self.parts().components_well_formed_at(limit)
    }
}
