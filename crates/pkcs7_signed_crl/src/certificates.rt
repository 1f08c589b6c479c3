//! Certificates, each kept as it is (RFC 5652, 10.2.2 and 10.2.3).

ghost use Rattle.std.specs.Prelude.{◌≡◌, ◌↔◌, IsTrue, []};
ghost use Rattle.asn1_core.specs.Der.{NextIs};
ghost use Rattle.pkcs7_signed_crl.specs.Certificates.{IsSequenceTag, certificate_choices, certificate_choices_value, certificate_set, certificate_set_value, no_certificates};
ghost use Rattle.pkcs7_signed_crl.specs.laws.Certificates.{no_certificates_left_out};
ghost use Rattle.pkcs7_signed_crl.specs.PartsEqual.{certificate_choices_equal, certificate_set_equal};

use asn1_core::prelude::*;
use std::alloc::Global;

/// `CertificateChoices ::= CHOICE { certificate Certificate, extendedCertificate [0] .., v1AttrCert [1] .., v2AttrCert
/// [2] .., other [3] .. }`, kept as it is. An alternative whose element hasn't its tag isn't well-formed.
#[derive(Debug, Drop, PartialEq, Eq)]
pub enum CertificateChoices {
    /// A SEQUENCE, by its tag alone.
    Certificate(Asn1RawDer),
    /// An element with any other tag.
    Other(Asn1RawDer),
}

/// Whether the tag is that of a SEQUENCE.
fn is_sequence(element: &Asn1RawDer) -> bool
    ensures { IsTrue result ↔ NextIs IsSequenceTag element.now.0.items }
{
    match element.0.as_slice() {
        [tag, ..] => *tag == 0x30,
        [] => false,
    }
}

impl DerSerialize for CertificateChoices {
    ghost Value = { certificate_choices.Value };

    ghost value = { certificate_choices_value };

    ghost format = { certificate_choices.format };

    fn put<W: Writer>(&self, w: &mut W) -> Result<(), WriteError> {
        match self {
            Self::Certificate(element) => element.put(w),
            Self::Other(element) => element.put(w),
        }
    }

    fn well_formed_at(&self, limit: u8) -> bool {
        match self {
            Self::Certificate(element) => is_sequence(element) && element.well_formed_at(limit),
            Self::Other(element) => !is_sequence(element) && element.well_formed_at(limit),
        }
    }
}

impl DerDeserialize for CertificateChoices {
    fn read(alloc: Global, r: &mut Reader<'_>, nest: u8) -> Result<Self, Error> {
        let element = Asn1RawDer::read(alloc, r, nest)?;
        if is_sequence(&element) {
            Ok(Self::Certificate(element))
        } else {
            Ok(Self::Other(element))
        }
    }

    #[tactic(auto, using(crate::specs::laws::Certificates::any_tag))]
    fn begins(_tag: u8) -> bool {
        true
    }

    ghost lawful = { certificate_choices.law };
}

impl EqualByText for CertificateChoices {
    ghost equal_by_text = { certificate_choices_equal };
}

impl TryClone for CertificateChoices {
    fn try_clone(&self, alloc: Global) -> Result<Self, Error> {
        match self {
            Self::Certificate(element) => Ok(Self::Certificate(element.try_clone(alloc)?)),
            Self::Other(element) => Ok(Self::Other(element.try_clone(alloc)?)),
        }
    }
}

/// `CertificateSet ::= SET OF CertificateChoices`, under its tag `[0] IMPLICIT`.
#[derive(Debug, Drop, PartialEq, Eq)]
pub struct CertificateSet(pub Vec<CertificateChoices>);

impl CertificateSet {
    /// The empty set. Takes no memory.
    pub fn empty(alloc: Global) -> Self
        ensures { result.0.items ≡ [] }
    {
        CertificateSet(Vec::new(alloc))
    }
}

impl DerSerialize for CertificateSet {
    ghost Value = { certificate_set.Value };

    ghost value = { certificate_set_value };

    ghost format = { certificate_set.format };

    fn put<W: Writer>(&self, w: &mut W) -> Result<(), WriteError> {
        put_within(0xA0, &self.0, w)
    }

    fn well_formed_at(&self, limit: u8) -> bool {
        self.0.components_well_formed_at(limit)
    }
}

impl DerDeserialize for CertificateSet {
    fn read(alloc: Global, r: &mut Reader<'_>, nest: u8) -> Result<Self, Error> {
        Ok(CertificateSet(read_within(alloc, r, nest, 0xA0)?))
    }

    fn begins(tag: u8) -> bool {
        tag == 0xA0
    }

    ghost lawful = { certificate_set.law };
}

impl DerTagged for CertificateSet {
    ghost TAG = { 0xA0 };

    const TAG: u8 = 0xA0;

    fn put_as<W: Writer>(&self, tag: u8, w: &mut W) -> Result<(), WriteError> {
        put_within(tag, &self.0, w)
    }

    fn read_contents(alloc: Global, r: &mut Reader<'_>, nest: u8) -> Result<Self, Error> {
        Ok(CertificateSet(read_inside(alloc, r, nest, 0xA0)?))
    }

    ghost tagged = { certificate_set.tagged };
}

impl HasDefault for CertificateSet {
    ghost DEFAULT = { no_certificates };

    #[tactic(auto, using(crate::specs::laws::Certificates::some_certificate))]
    fn is_default(&self) -> bool {
        is_left_out(0xA0, &self.0)
    }

    fn absent(alloc: Global) -> Result<Self, Error> {
        Ok(CertificateSet::empty(alloc))
    }

    ghost left_out = { no_certificates_left_out };
}

impl EqualByText for CertificateSet {
    ghost equal_by_text = { certificate_set_equal };
}

impl TryClone for CertificateSet {
    fn try_clone(&self, alloc: Global) -> Result<Self, Error> {
        Ok(CertificateSet(self.0.try_clone(alloc)?))
    }
}
