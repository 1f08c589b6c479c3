//! Information about revoked certificates (RFC 5652, 10.2.1).

ghost use Rattle.std.specs.Prelude.{◌≡◌, []};
ghost use Rattle.pkcs7_signed_crl.specs.PartsEqual.{other_revocation_info_format_equal, revocation_info_choice_equal, revocation_info_choices_equal};
ghost use Rattle.pkcs7_signed_crl.specs.Revocations.{other_revocation_info_format, other_revocation_info_format_value, revocation_info_choice, revocation_info_choice_value, revocation_info_choices, revocation_info_choices_value};

use crate::certificate_lists::CertificateList;
use crate::certificates::CertificateSet;
use asn1_core::prelude::*;
use std::alloc::Global;

/// `OtherRevocationInfoFormat ::= SEQUENCE { otherRevInfoFormat OBJECT IDENTIFIER, otherRevInfo ANY DEFINED BY
/// otherRevInfoFormat }`, of which those are read whose `otherRevInfo` is NULL.
#[derive(Debug, Drop, PartialEq, Eq)]
pub struct OtherRevocationInfoFormat {
    other_rev_info_format: ObjectIdentifierAsn1,
    other_rev_info: (),
}

impl Sequence for OtherRevocationInfoFormat {
    ghost asn1 = { other_revocation_info_format };

    ghost value = { other_revocation_info_format_value };

    fn with_components<U: ComponentVisitor>(&self, visitor: &mut U) -> U::Out {
        visitor.visit(&body_of!(self; other_rev_info_format, (Null)))
    }

    fn read_fields(alloc: Global, r: &mut Reader<'_>, nest: u8) -> Result<Self, Error> {
        let Required(format, Required(Null, End)) = ReadComponents::read_components(
            alloc, r, nest,
        )?;
        Ok(OtherRevocationInfoFormat {
            other_rev_info_format: format,
            other_rev_info: (),
        })
    }

    fn clone_fields(&self, alloc: Global) -> Result<Self, Error> {
        Ok(OtherRevocationInfoFormat {
            other_rev_info_format: self.other_rev_info_format.try_clone(alloc)?,
            other_rev_info: (),
        })
    }

    ghost equal = { other_revocation_info_format_equal };
}

/// `RevocationInfoChoice ::= CHOICE { crl CertificateList, other [1] IMPLICIT OtherRevocationInfoFormat }`
#[derive(Debug, Drop, PartialEq)]
pub enum RevocationInfoChoice {
    Crl(CertificateList),
    Other(ImplicitContextTag1<OtherRevocationInfoFormat>),
}

impl Asn1Type for RevocationInfoChoice {
    ghost asn1 = { revocation_info_choice };

    ghost value = { revocation_info_choice_value };

    fn with_encoded<U: ComponentVisitor>(&self, visitor: &mut U) -> U::Out {
        match self {
            Self::Crl(list) => visitor.visit_value(list),
            Self::Other(other) => visitor.visit_value(other),
        }
    }

    fn read_encoded(alloc: Global, r: &mut Reader<'_>, nest: u8) -> Result<Self, Error> {
        match Either::read_one(alloc, r, nest)? {
            Either::First(list) => Ok(Self::Crl(list)),
            Either::Second(other) => Ok(Self::Other(other)),
        }
    }

    fn is_first_tag(tag: u8) -> bool {
        tag == 0x30 || tag == 0xA1
    }

    fn clone_value(&self, alloc: Global) -> Result<Self, Error> {
        match self {
            Self::Crl(list) => Ok(Self::Crl(list.try_clone(alloc)?)),
            Self::Other(other) => Ok(Self::Other(other.try_clone(alloc)?)),
        }
    }

    ghost equal = { revocation_info_choice_equal };
}

/// `RevocationInfoChoices ::= SET OF RevocationInfoChoice`, under its tag `[1] IMPLICIT`.
#[derive(Debug, Drop, PartialEq)]
pub struct RevocationInfoChoices(pub Vec<RevocationInfoChoice>);

impl RevocationInfoChoices {
    /// The empty set. Takes no memory.
    pub fn empty(alloc: Global) -> Self
        ensures { result.0.items ≡ [] }
    {
        RevocationInfoChoices(Vec::new(alloc))
    }
}

impl TaggedType for RevocationInfoChoices {
    ghost asn1 = { revocation_info_choices };

    ghost value = { revocation_info_choices_value };

    ghost TAG = { 0xA1 };

    const TAG: u8 = 0xA1;

    fn put_tagged<W: Writer>(&self, tag: u8, w: &mut W) -> Result<(), WriteError> {
        put_within(tag, &self.0, w)
    }

    fn is_well_formed_at(&self, limit: u8) -> bool {
        self.0.components_well_formed_at(limit)
    }

    // so that it takes none of the stack that signed data takes at each level
    #[inline(never)]
    fn read_open_contents(alloc: Global, r: &mut Reader<'_>, nest: u8) -> Result<Self, Error> {
        Ok(RevocationInfoChoices(read_inside(alloc, r, nest, 0xA1)?))
    }

    fn clone_value(&self, alloc: Global) -> Result<Self, Error> {
        Ok(RevocationInfoChoices(self.0.try_clone(alloc)?))
    }

    ghost tagged = { revocation_info_choices.tagged };

    ghost equal = { revocation_info_choices_equal };
}
