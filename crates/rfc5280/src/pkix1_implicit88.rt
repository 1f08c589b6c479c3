//! The types of PKIX1Implicit88, made of `rfc5280-implicit.asn1`; not to be edited.

ghost use Rattle.rfc5280.specs.Pkix1Implicit88.{another_name, another_name_value, another_name_equal};
ghost use Rattle.rfc5280.specs.Pkix1Implicit88.{edi_party_name, edi_party_name_value, edi_party_name_equal};
ghost use Rattle.rfc5280.specs.Pkix1Implicit88.{general_name, general_name_value, general_name_equal};
ghost use Rattle.rfc5280.specs.Pkix1Implicit88.{authority_key_identifier, authority_key_identifier_value, authority_key_identifier_equal};
ghost use Rattle.rfc5280.specs.Pkix1Implicit88.{private_key_usage_period, private_key_usage_period_value, private_key_usage_period_equal};
ghost use Rattle.rfc5280.specs.Pkix1Implicit88.{policy_qualifier_info, policy_qualifier_info_value, policy_qualifier_info_equal};
ghost use Rattle.rfc5280.specs.Pkix1Implicit88.{policy_information, policy_information_value, policy_information_equal};
ghost use Rattle.rfc5280.specs.Pkix1Implicit88.{display_text, display_text_value, display_text_equal};
ghost use Rattle.rfc5280.specs.Pkix1Implicit88.{notice_reference, notice_reference_value, notice_reference_equal};
ghost use Rattle.rfc5280.specs.Pkix1Implicit88.{user_notice, user_notice_value, user_notice_equal};
ghost use Rattle.rfc5280.specs.Pkix1Implicit88.{policy_mappings_item, policy_mappings_item_value, policy_mappings_item_equal};
ghost use Rattle.rfc5280.specs.Pkix1Implicit88.{basic_constraints, basic_constraints_value, basic_constraints_equal};
ghost use Rattle.rfc5280.specs.Pkix1Implicit88.{general_subtree, general_subtree_value, general_subtree_equal};
ghost use Rattle.rfc5280.specs.Pkix1Implicit88.{name_constraints, name_constraints_value, name_constraints_equal};
ghost use Rattle.rfc5280.specs.Pkix1Implicit88.{policy_constraints, policy_constraints_value, policy_constraints_equal};
ghost use Rattle.rfc5280.specs.Pkix1Implicit88.{distribution_point_name, distribution_point_name_value, distribution_point_name_equal};
ghost use Rattle.rfc5280.specs.Pkix1Implicit88.{distribution_point, distribution_point_value, distribution_point_equal};
ghost use Rattle.rfc5280.specs.Pkix1Implicit88.{access_description, access_description_value, access_description_equal};
ghost use Rattle.rfc5280.specs.Pkix1Implicit88.{issuing_distribution_point, issuing_distribution_point_value, issuing_distribution_point_equal};
ghost use Rattle.rfc5280.specs.Pkix1Implicit88.{crl_reason, crl_reason_value, crl_reason_equal, crl_reason_numbers};
ghost use Rattle.rfc5280.specs.laws.Pkix1Implicit88.{crl_reason_listed};
ghost use Rattle.std.proofs.Common.{ℕ, refl};
ghost use Rattle.asn1_module_leaves.specs.Enumerations.{numbers_in};
ghost use Rattle.std.specs.Prelude.{◌↔◌, IsTrue};
ghost use Rattle.asn1_leaves_strings.specs.Octets.{contents_of};
ghost use Rattle.asn1_module_leaves.specs.NamedBits.{HasBit};

use crate::pkix1_explicit88::{
    CertificateSerialNumber, DirectoryString, RelativeDistinguishedName,
};
use asn1_core::prelude::*;
use asn1_leaves::{
    BMPStringAsn1, BitStringAsn1, GeneralizedTimeAsn1, IA5StringAsn1, IntegerAsn1, Utf8StringAsn1,
};
use asn1_module_leaves::{Enumerated, Under, VisibleStringAsn1, enumerated_from_contents, has_bit};
use std::alloc::Global;
use x509_base::{Attribute, Name};

/// `KeyIdentifier ::= OCTET STRING` (RFC 5280, 4.2.1.1)
pub type KeyIdentifier = OctetStringAsn1;

/// `AnotherName ::= SEQUENCE { type-id OBJECT IDENTIFIER, value [0] EXPLICIT ANY DEFINED BY type-id }` (RFC 5280,
/// 4.2.1.6)
#[derive(Debug, Drop, PartialEq, Eq)]
pub struct AnotherName {
    pub type_id: ObjectIdentifierAsn1,
    pub value: Explicit<0, Asn1RawDer>,
}

impl Sequence for AnotherName {
    ghost asn1 = { another_name };

    ghost value = { another_name_value };

    fn with_components<U: ComponentVisitor>(&self, visitor: &mut U) -> U::Out {
        with_components_of!(self, visitor; AnotherName { type_id, value })
    }

    fn read_fields(alloc: Global, r: &mut Reader<'_>, nest: u8) -> Result<Self, Error> {
        read_fields_of!(alloc, r, nest; AnotherName { type_id, value })
    }

    fn clone_fields(&self, alloc: Global) -> Result<Self, Error> {
        clone_fields_of!(self, alloc; AnotherName { type_id, value })
    }

    ghost equal = { another_name_equal };
}

/// `ORAddress ::= SEQUENCE OF ANY` (RFC 5280, 4.2.1.6)
pub type OrAddress = Asn1SequenceOf<Asn1RawDer>;

/// `EDIPartyName ::= SEQUENCE { nameAssigner [0] DirectoryString OPTIONAL, partyName [1] DirectoryString }` (RFC
/// 5280, 4.2.1.6)
#[derive(Debug, Drop, PartialEq, Eq)]
pub struct EdiPartyName {
    pub name_assigner: Option<Explicit<0, DirectoryString>>,
    pub party_name: Explicit<1, DirectoryString>,
}

impl Sequence for EdiPartyName {
    ghost asn1 = { edi_party_name };

    ghost value = { edi_party_name_value };

    fn with_components<U: ComponentVisitor>(&self, visitor: &mut U) -> U::Out {
        with_components_of!(self, visitor; EdiPartyName { name_assigner OPTIONAL, party_name })
    }

    fn read_fields(alloc: Global, r: &mut Reader<'_>, nest: u8) -> Result<Self, Error> {
        read_fields_of!(alloc, r, nest; EdiPartyName { name_assigner OPTIONAL, party_name })
    }

    fn clone_fields(&self, alloc: Global) -> Result<Self, Error> {
        clone_fields_of!(self, alloc; EdiPartyName { name_assigner OPTIONAL, party_name })
    }

    ghost equal = { edi_party_name_equal };
}

/// `GeneralName ::= CHOICE { otherName [0] AnotherName, rfc822Name [1] IA5String, dNSName [2] IA5String,
/// x400Address [3] ORAddress, directoryName [4] Name, ediPartyName [5] EDIPartyName, uniformResourceIdentifier [6]
/// IA5String, iPAddress [7] OCTET STRING, registeredID [8] OBJECT IDENTIFIER }` (RFC 5280, 4.2.1.6)
#[derive(Debug, Drop, PartialEq, Eq)]
pub enum GeneralName {
    OtherName(AnotherName),
    Rfc822Name(IA5StringAsn1),
    DnsName(IA5StringAsn1),
    X400Address(OrAddress),
    DirectoryName(Name),
    EdiPartyName(EdiPartyName),
    UniformResourceIdentifier(IA5StringAsn1),
    IpAddress(OctetStringAsn1),
    RegisteredId(ObjectIdentifierAsn1),
}

type GeneralNameChoice = Either<
    Implicit<0, AnotherName>,
    Either<
        Implicit<1, IA5StringAsn1>,
        Either<
            Implicit<2, IA5StringAsn1>,
            Either<
                Implicit<3, OrAddress>,
                Either<
                    Explicit<4, Name>,
                    Either<
                        Implicit<5, EdiPartyName>,
                        Either<
                            Implicit<6, IA5StringAsn1>,
                            Either<Implicit<7, OctetStringAsn1>, Implicit<8, ObjectIdentifierAsn1>>,
                        >,
                    >,
                >,
            >,
        >,
    >,
>;

impl Asn1Type for GeneralName {
    ghost asn1 = { general_name };

    ghost value = { general_name_value };

    fn with_encoded<U: ComponentVisitor>(&self, visitor: &mut U) -> U::Out {
        match self {
            GeneralName::OtherName(x) => visitor.visit(&Under::<0xA0, _>(x)),
            GeneralName::Rfc822Name(x) => visitor.visit(&Under::<0x81, _>(x)),
            GeneralName::DnsName(x) => visitor.visit(&Under::<0x82, _>(x)),
            GeneralName::X400Address(x) => visitor.visit(&Under::<0xA3, _>(x)),
            GeneralName::DirectoryName(x) => visitor.visit_within::<0xA4, _>(&Alone(Ref(x))),
            GeneralName::EdiPartyName(x) => visitor.visit(&Under::<0xA5, _>(x)),
            GeneralName::UniformResourceIdentifier(x) => visitor.visit(&Under::<0x86, _>(x)),
            GeneralName::IpAddress(x) => visitor.visit(&Under::<0x87, _>(x)),
            GeneralName::RegisteredId(x) => visitor.visit(&Under::<0x88, _>(x)),
        }
    }

    fn read_encoded(alloc: Global, r: &mut Reader<'_>, nest: u8) -> Result<Self, Error> {
        let choice: GeneralNameChoice = Either::read_one(alloc, r, nest)?;
        match choice {
            Either::First(x) => {
                let Implicit(x) = x;
                Ok(GeneralName::OtherName(x))
            }
            Either::Second(Either::First(x)) => {
                let Implicit(x) = x;
                Ok(GeneralName::Rfc822Name(x))
            }
            Either::Second(Either::Second(Either::First(x))) => {
                let Implicit(x) = x;
                Ok(GeneralName::DnsName(x))
            }
            Either::Second(Either::Second(Either::Second(Either::First(x)))) => {
                let Implicit(x) = x;
                Ok(GeneralName::X400Address(x))
            }
            Either::Second(Either::Second(Either::Second(Either::Second(Either::First(x))))) => {
                let Explicit(x) = x;
                Ok(GeneralName::DirectoryName(x))
            }
            Either::Second(
                Either::Second(Either::Second(Either::Second(Either::Second(Either::First(x))))),
            ) => {
                let Implicit(x) = x;
                Ok(GeneralName::EdiPartyName(x))
            }
            Either::Second(
                Either::Second(
                    Either::Second(
                        Either::Second(Either::Second(Either::Second(Either::First(x)))),
                    ),
                ),
            ) => {
                let Implicit(x) = x;
                Ok(GeneralName::UniformResourceIdentifier(x))
            }
            Either::Second(
                Either::Second(
                    Either::Second(
                        Either::Second(
                            Either::Second(Either::Second(Either::Second(Either::First(x)))),
                        ),
                    ),
                ),
            ) => {
                let Implicit(x) = x;
                Ok(GeneralName::IpAddress(x))
            }
            Either::Second(
                Either::Second(
                    Either::Second(
                        Either::Second(
                            Either::Second(Either::Second(Either::Second(Either::Second(x)))),
                        ),
                    ),
                ),
            ) => {
                let Implicit(x) = x;
                Ok(GeneralName::RegisteredId(x))
            }
        }
    }

    fn is_first_tag(tag: u8) -> bool {
        tag == 0x81
            || tag == 0x82
            || tag == 0x86
            || tag == 0x87
            || tag == 0x88
            || tag == 0xA0
            || tag == 0xA3
            || tag == 0xA4
            || tag == 0xA5
    }

    fn clone_value(&self, alloc: Global) -> Result<Self, Error> {
        match self {
            GeneralName::OtherName(x) => Ok(GeneralName::OtherName(x.try_clone(alloc)?)),
            GeneralName::Rfc822Name(x) => Ok(GeneralName::Rfc822Name(x.try_clone(alloc)?)),
            GeneralName::DnsName(x) => Ok(GeneralName::DnsName(x.try_clone(alloc)?)),
            GeneralName::X400Address(x) => Ok(GeneralName::X400Address(x.try_clone(alloc)?)),
            GeneralName::DirectoryName(x) => Ok(GeneralName::DirectoryName(x.try_clone(alloc)?)),
            GeneralName::EdiPartyName(x) => Ok(GeneralName::EdiPartyName(x.try_clone(alloc)?)),
            GeneralName::UniformResourceIdentifier(x) => Ok(GeneralName::UniformResourceIdentifier(
                x.try_clone(alloc)?,
            )),
            GeneralName::IpAddress(x) => Ok(GeneralName::IpAddress(x.try_clone(alloc)?)),
            GeneralName::RegisteredId(x) => Ok(GeneralName::RegisteredId(x.try_clone(alloc)?)),
        }
    }

    ghost equal = { general_name_equal };
}

/// `GeneralNames ::= SEQUENCE SIZE (1..MAX) OF GeneralName` (RFC 5280, 4.2.1.6)
///
/// The size (1..MAX) isn't tested.
pub type GeneralNames = Asn1SequenceOf<GeneralName>;

/// `AuthorityKeyIdentifier ::= SEQUENCE { keyIdentifier [0] KeyIdentifier OPTIONAL, authorityCertIssuer [1]
/// GeneralNames OPTIONAL, authorityCertSerialNumber [2] CertificateSerialNumber OPTIONAL }` (RFC 5280, 4.2.1.1)
#[derive(Debug, Drop, PartialEq, Eq)]
pub struct AuthorityKeyIdentifier {
    pub key_identifier: Option<Implicit<0, KeyIdentifier>>,
    pub authority_cert_issuer: Option<Implicit<1, GeneralNames>>,
    pub authority_cert_serial_number: Option<Implicit<2, CertificateSerialNumber>>,
}

macro_rules! authority_key_identifier_parts {
    ($by:ident($($with:ident),*)) => {
        $by!($($with),*; AuthorityKeyIdentifier {
            key_identifier OPTIONAL, authority_cert_issuer OPTIONAL, authority_cert_serial_number OPTIONAL
        })
    };
}

impl Sequence for AuthorityKeyIdentifier {
    ghost asn1 = { authority_key_identifier };

    ghost value = { authority_key_identifier_value };

    fn with_components<U: ComponentVisitor>(&self, visitor: &mut U) -> U::Out {
        authority_key_identifier_parts!(with_components_of(self, visitor))
    }

    fn read_fields(alloc: Global, r: &mut Reader<'_>, nest: u8) -> Result<Self, Error> {
        authority_key_identifier_parts!(read_fields_of(alloc, r, nest))
    }

    fn clone_fields(&self, alloc: Global) -> Result<Self, Error> {
        authority_key_identifier_parts!(clone_fields_of(self, alloc))
    }

    ghost equal = { authority_key_identifier_equal };
}

/// `SubjectKeyIdentifier ::= KeyIdentifier` (RFC 5280, 4.2.1.2)
pub type SubjectKeyIdentifier = KeyIdentifier;

/// `KeyUsage ::= BIT STRING { digitalSignature(0), nonRepudiation(1), keyEncipherment(2), dataEncipherment(3),
/// keyAgreement(4), keyCertSign(5), cRLSign(6), encipherOnly(7), decipherOnly(8) }` (RFC 5280, 4.2.1.3)
///
/// Zero bits at the end are kept (X.690, 11.2.2).
pub type KeyUsage = BitStringAsn1;

/// The bit `digitalSignature` of `KeyUsage`.
pub const KEY_USAGE_DIGITAL_SIGNATURE: usize = 0;

/// The bit `nonRepudiation` of `KeyUsage`.
pub const KEY_USAGE_NON_REPUDIATION: usize = 1;

/// The bit `keyEncipherment` of `KeyUsage`.
pub const KEY_USAGE_KEY_ENCIPHERMENT: usize = 2;

/// The bit `dataEncipherment` of `KeyUsage`.
pub const KEY_USAGE_DATA_ENCIPHERMENT: usize = 3;

/// The bit `keyAgreement` of `KeyUsage`.
pub const KEY_USAGE_KEY_AGREEMENT: usize = 4;

/// The bit `keyCertSign` of `KeyUsage`.
pub const KEY_USAGE_KEY_CERT_SIGN: usize = 5;

/// The bit `cRLSign` of `KeyUsage`.
pub const KEY_USAGE_CRL_SIGN: usize = 6;

/// The bit `encipherOnly` of `KeyUsage`.
pub const KEY_USAGE_ENCIPHER_ONLY: usize = 7;

/// The bit `decipherOnly` of `KeyUsage`.
pub const KEY_USAGE_DECIPHER_ONLY: usize = 8;

/// Whether the bit `digitalSignature` of `KeyUsage` is 1.
pub fn key_usage_digital_signature(bits: &KeyUsage) -> bool
    ensures { IsTrue result ↔ HasBit (contents_of bits.now.0) 0 }
{
    has_bit(bits, 0)
}

/// Whether the bit `nonRepudiation` of `KeyUsage` is 1.
pub fn key_usage_non_repudiation(bits: &KeyUsage) -> bool
    ensures { IsTrue result ↔ HasBit (contents_of bits.now.0) 1 }
{
    has_bit(bits, 1)
}

/// Whether the bit `keyEncipherment` of `KeyUsage` is 1.
pub fn key_usage_key_encipherment(bits: &KeyUsage) -> bool
    ensures { IsTrue result ↔ HasBit (contents_of bits.now.0) 2 }
{
    has_bit(bits, 2)
}

/// Whether the bit `dataEncipherment` of `KeyUsage` is 1.
pub fn key_usage_data_encipherment(bits: &KeyUsage) -> bool
    ensures { IsTrue result ↔ HasBit (contents_of bits.now.0) 3 }
{
    has_bit(bits, 3)
}

/// Whether the bit `keyAgreement` of `KeyUsage` is 1.
pub fn key_usage_key_agreement(bits: &KeyUsage) -> bool
    ensures { IsTrue result ↔ HasBit (contents_of bits.now.0) 4 }
{
    has_bit(bits, 4)
}

/// Whether the bit `keyCertSign` of `KeyUsage` is 1.
pub fn key_usage_key_cert_sign(bits: &KeyUsage) -> bool
    ensures { IsTrue result ↔ HasBit (contents_of bits.now.0) 5 }
{
    has_bit(bits, 5)
}

/// Whether the bit `cRLSign` of `KeyUsage` is 1.
pub fn key_usage_crl_sign(bits: &KeyUsage) -> bool
    ensures { IsTrue result ↔ HasBit (contents_of bits.now.0) 6 }
{
    has_bit(bits, 6)
}

/// Whether the bit `encipherOnly` of `KeyUsage` is 1.
pub fn key_usage_encipher_only(bits: &KeyUsage) -> bool
    ensures { IsTrue result ↔ HasBit (contents_of bits.now.0) 7 }
{
    has_bit(bits, 7)
}

/// Whether the bit `decipherOnly` of `KeyUsage` is 1.
pub fn key_usage_decipher_only(bits: &KeyUsage) -> bool
    ensures { IsTrue result ↔ HasBit (contents_of bits.now.0) 8 }
{
    has_bit(bits, 8)
}

/// `PrivateKeyUsagePeriod ::= SEQUENCE { notBefore [0] GeneralizedTime OPTIONAL, notAfter [1] GeneralizedTime
/// OPTIONAL }` (RFC 5280, A.2)
///
/// A GeneralizedTime with a fraction of a second is refused.
#[derive(Debug, Drop, PartialEq, Eq)]
pub struct PrivateKeyUsagePeriod {
    pub not_before: Option<Implicit<0, GeneralizedTimeAsn1>>,
    pub not_after: Option<Implicit<1, GeneralizedTimeAsn1>>,
}

macro_rules! private_key_usage_period_parts {
    ($by:ident($($with:ident),*)) => {
        $by!($($with),*; PrivateKeyUsagePeriod {
            not_before OPTIONAL, not_after OPTIONAL
        })
    };
}

impl Sequence for PrivateKeyUsagePeriod {
    ghost asn1 = { private_key_usage_period };

    ghost value = { private_key_usage_period_value };

    fn with_components<U: ComponentVisitor>(&self, visitor: &mut U) -> U::Out {
        private_key_usage_period_parts!(with_components_of(self, visitor))
    }

    fn read_fields(alloc: Global, r: &mut Reader<'_>, nest: u8) -> Result<Self, Error> {
        private_key_usage_period_parts!(read_fields_of(alloc, r, nest))
    }

    fn clone_fields(&self, alloc: Global) -> Result<Self, Error> {
        private_key_usage_period_parts!(clone_fields_of(self, alloc))
    }

    ghost equal = { private_key_usage_period_equal };
}

/// `CertPolicyId ::= OBJECT IDENTIFIER` (RFC 5280, 4.2.1.4)
pub type CertPolicyId = ObjectIdentifierAsn1;

/// `PolicyQualifierId ::= OBJECT IDENTIFIER` (RFC 5280, 4.2.1.4)
pub type PolicyQualifierId = ObjectIdentifierAsn1;

/// `PolicyQualifierInfo ::= SEQUENCE { policyQualifierId PolicyQualifierId, qualifier ANY DEFINED BY
/// policyQualifierId }` (RFC 5280, 4.2.1.4)
#[derive(Debug, Drop, PartialEq, Eq)]
pub struct PolicyQualifierInfo {
    pub policy_qualifier_id: PolicyQualifierId,
    pub qualifier: Asn1RawDer,
}

impl Sequence for PolicyQualifierInfo {
    ghost asn1 = { policy_qualifier_info };

    ghost value = { policy_qualifier_info_value };

    fn with_components<U: ComponentVisitor>(&self, visitor: &mut U) -> U::Out {
        with_components_of!(self, visitor; PolicyQualifierInfo { policy_qualifier_id, qualifier })
    }

    fn read_fields(alloc: Global, r: &mut Reader<'_>, nest: u8) -> Result<Self, Error> {
        read_fields_of!(alloc, r, nest; PolicyQualifierInfo { policy_qualifier_id, qualifier })
    }

    fn clone_fields(&self, alloc: Global) -> Result<Self, Error> {
        clone_fields_of!(self, alloc; PolicyQualifierInfo { policy_qualifier_id, qualifier })
    }

    ghost equal = { policy_qualifier_info_equal };
}

/// `PolicyInformation ::= SEQUENCE { policyIdentifier CertPolicyId, policyQualifiers SEQUENCE SIZE (1..MAX) OF
/// PolicyQualifierInfo OPTIONAL }` (RFC 5280, 4.2.1.4)
///
/// The size (1..MAX) isn't tested.
#[derive(Debug, Drop, PartialEq, Eq)]
pub struct PolicyInformation {
    pub policy_identifier: CertPolicyId,
    pub policy_qualifiers: Option<Asn1SequenceOf<PolicyQualifierInfo>>,
}

macro_rules! policy_information_parts {
    ($by:ident($($with:ident),*)) => {
        $by!($($with),*; PolicyInformation {
            policy_identifier, policy_qualifiers OPTIONAL
        })
    };
}

impl Sequence for PolicyInformation {
    ghost asn1 = { policy_information };

    ghost value = { policy_information_value };

    fn with_components<U: ComponentVisitor>(&self, visitor: &mut U) -> U::Out {
        policy_information_parts!(with_components_of(self, visitor))
    }

    fn read_fields(alloc: Global, r: &mut Reader<'_>, nest: u8) -> Result<Self, Error> {
        policy_information_parts!(read_fields_of(alloc, r, nest))
    }

    fn clone_fields(&self, alloc: Global) -> Result<Self, Error> {
        policy_information_parts!(clone_fields_of(self, alloc))
    }

    ghost equal = { policy_information_equal };
}

/// `CertificatePolicies ::= SEQUENCE SIZE (1..MAX) OF PolicyInformation` (RFC 5280, 4.2.1.4)
///
/// The size (1..MAX) isn't tested.
pub type CertificatePolicies = Asn1SequenceOf<PolicyInformation>;

/// `CPSuri ::= IA5String` (RFC 5280, 4.2.1.4)
pub type CpSuri = IA5StringAsn1;

/// `DisplayText ::= CHOICE { ia5String IA5String (SIZE (1..200)), visibleString VisibleString (SIZE (1..200)),
/// bmpString BMPString (SIZE (1..200)), utf8String UTF8String (SIZE (1..200)) }` (RFC 5280, 4.2.1.4)
///
/// (SIZE (1..200)) isn't tested; the characters of VisibleString aren't tested.
#[derive(Debug, Drop, PartialEq, Eq)]
pub enum DisplayText {
    Ia5String(IA5StringAsn1),
    VisibleString(VisibleStringAsn1),
    BmpString(BMPStringAsn1),
    Utf8String(Utf8StringAsn1),
}

type DisplayTextChoice = Either<
    IA5StringAsn1,
    Either<VisibleStringAsn1, Either<BMPStringAsn1, Utf8StringAsn1>>,
>;

impl Asn1Type for DisplayText {
    ghost asn1 = { display_text };

    ghost value = { display_text_value };

    fn with_encoded<U: ComponentVisitor>(&self, visitor: &mut U) -> U::Out {
        match self {
            DisplayText::Ia5String(x) => visitor.visit_value(x),
            DisplayText::VisibleString(x) => visitor.visit_value(x),
            DisplayText::BmpString(x) => visitor.visit_value(x),
            DisplayText::Utf8String(x) => visitor.visit_value(x),
        }
    }

    fn read_encoded(alloc: Global, r: &mut Reader<'_>, nest: u8) -> Result<Self, Error> {
        let choice: DisplayTextChoice = Either::read_one(alloc, r, nest)?;
        match choice {
            Either::First(x) => Ok(DisplayText::Ia5String(x)),
            Either::Second(Either::First(x)) => Ok(DisplayText::VisibleString(x)),
            Either::Second(Either::Second(Either::First(x))) => Ok(DisplayText::BmpString(x)),
            Either::Second(Either::Second(Either::Second(x))) => Ok(DisplayText::Utf8String(x)),
        }
    }

    fn is_first_tag(tag: u8) -> bool {
        tag == 0x0C || tag == 0x16 || tag == 0x1A || tag == 0x1E
    }

    fn clone_value(&self, alloc: Global) -> Result<Self, Error> {
        match self {
            DisplayText::Ia5String(x) => Ok(DisplayText::Ia5String(x.try_clone(alloc)?)),
            DisplayText::VisibleString(x) => Ok(DisplayText::VisibleString(x.try_clone(alloc)?)),
            DisplayText::BmpString(x) => Ok(DisplayText::BmpString(x.try_clone(alloc)?)),
            DisplayText::Utf8String(x) => Ok(DisplayText::Utf8String(x.try_clone(alloc)?)),
        }
    }

    ghost equal = { display_text_equal };
}

/// `NoticeReference ::= SEQUENCE { organization DisplayText, noticeNumbers SEQUENCE OF INTEGER }` (RFC 5280,
/// 4.2.1.4)
#[derive(Debug, Drop, PartialEq, Eq)]
pub struct NoticeReference {
    pub organization: DisplayText,
    pub notice_numbers: Asn1SequenceOf<IntegerAsn1>,
}

impl Sequence for NoticeReference {
    ghost asn1 = { notice_reference };

    ghost value = { notice_reference_value };

    fn with_components<U: ComponentVisitor>(&self, visitor: &mut U) -> U::Out {
        with_components_of!(self, visitor; NoticeReference { organization, notice_numbers })
    }

    fn read_fields(alloc: Global, r: &mut Reader<'_>, nest: u8) -> Result<Self, Error> {
        read_fields_of!(alloc, r, nest; NoticeReference { organization, notice_numbers })
    }

    fn clone_fields(&self, alloc: Global) -> Result<Self, Error> {
        clone_fields_of!(self, alloc; NoticeReference { organization, notice_numbers })
    }

    ghost equal = { notice_reference_equal };
}

/// `UserNotice ::= SEQUENCE { noticeRef NoticeReference OPTIONAL, explicitText DisplayText OPTIONAL }` (RFC 5280,
/// 4.2.1.4)
#[derive(Debug, Drop, PartialEq, Eq)]
pub struct UserNotice {
    pub notice_ref: Option<NoticeReference>,
    pub explicit_text: Option<DisplayText>,
}

impl Sequence for UserNotice {
    ghost asn1 = { user_notice };

    ghost value = { user_notice_value };

    fn with_components<U: ComponentVisitor>(&self, visitor: &mut U) -> U::Out {
        with_components_of!(self, visitor; UserNotice { notice_ref OPTIONAL, explicit_text OPTIONAL })
    }

    fn read_fields(alloc: Global, r: &mut Reader<'_>, nest: u8) -> Result<Self, Error> {
        read_fields_of!(alloc, r, nest; UserNotice { notice_ref OPTIONAL, explicit_text OPTIONAL })
    }

    fn clone_fields(&self, alloc: Global) -> Result<Self, Error> {
        clone_fields_of!(self, alloc; UserNotice { notice_ref OPTIONAL, explicit_text OPTIONAL })
    }

    ghost equal = { user_notice_equal };
}

/// `PolicyMappings.item ::= SEQUENCE { issuerDomainPolicy CertPolicyId, subjectDomainPolicy CertPolicyId }` (RFC
/// 5280, 4.2.1.5)
#[derive(Debug, Drop, PartialEq, Eq)]
pub struct PolicyMappingsItem {
    pub issuer_domain_policy: CertPolicyId,
    pub subject_domain_policy: CertPolicyId,
}

macro_rules! policy_mappings_item_parts {
    ($by:ident($($with:ident),*)) => {
        $by!($($with),*; PolicyMappingsItem {
            issuer_domain_policy, subject_domain_policy
        })
    };
}

impl Sequence for PolicyMappingsItem {
    ghost asn1 = { policy_mappings_item };

    ghost value = { policy_mappings_item_value };

    fn with_components<U: ComponentVisitor>(&self, visitor: &mut U) -> U::Out {
        policy_mappings_item_parts!(with_components_of(self, visitor))
    }

    fn read_fields(alloc: Global, r: &mut Reader<'_>, nest: u8) -> Result<Self, Error> {
        policy_mappings_item_parts!(read_fields_of(alloc, r, nest))
    }

    fn clone_fields(&self, alloc: Global) -> Result<Self, Error> {
        policy_mappings_item_parts!(clone_fields_of(self, alloc))
    }

    ghost equal = { policy_mappings_item_equal };
}

/// `PolicyMappings ::= SEQUENCE SIZE (1..MAX) OF SEQUENCE { issuerDomainPolicy CertPolicyId, subjectDomainPolicy
/// CertPolicyId }` (RFC 5280, 4.2.1.5)
///
/// The size (1..MAX) isn't tested.
pub type PolicyMappings = Asn1SequenceOf<PolicyMappingsItem>;

/// `SubjectAltName ::= GeneralNames` (RFC 5280, 4.2.1.6)
pub type SubjectAltName = GeneralNames;

/// `IssuerAltName ::= GeneralNames` (RFC 5280, 4.2.1.7)
pub type IssuerAltName = GeneralNames;

/// `SubjectDirectoryAttributes ::= SEQUENCE SIZE (1..MAX) OF Attribute` (RFC 5280, 4.2.1.8)
///
/// The size (1..MAX) isn't tested.
pub type SubjectDirectoryAttributes = Asn1SequenceOf<Attribute>;

/// `BasicConstraints ::= SEQUENCE { cA BOOLEAN DEFAULT FALSE, pathLenConstraint INTEGER (0..MAX) OPTIONAL }` (RFC
/// 5280, 4.2.1.9)
///
/// (0..MAX) isn't tested.
#[derive(Debug, Drop, PartialEq, Eq)]
pub struct BasicConstraints {
    pub ca: bool,
    pub path_len_constraint: Option<IntegerAsn1>,
}

macro_rules! basic_constraints_parts {
    ($by:ident($($with:ident),*)) => {
        $by!($($with),*; BasicConstraints {
            DefaultFalse(ca) DEFAULT, path_len_constraint OPTIONAL
        })
    };
}

impl Sequence for BasicConstraints {
    ghost asn1 = { basic_constraints };

    ghost value = { basic_constraints_value };

    fn with_components<U: ComponentVisitor>(&self, visitor: &mut U) -> U::Out {
        basic_constraints_parts!(with_components_of(self, visitor))
    }

    fn read_fields(alloc: Global, r: &mut Reader<'_>, nest: u8) -> Result<Self, Error> {
        basic_constraints_parts!(read_fields_of(alloc, r, nest))
    }

    fn clone_fields(&self, alloc: Global) -> Result<Self, Error> {
        basic_constraints_parts!(clone_fields_of(self, alloc))
    }

    ghost equal = { basic_constraints_equal };
}

/// `BaseDistance ::= INTEGER (0..MAX)` (RFC 5280, 4.2.1.10)
///
/// (0..MAX) isn't tested.
pub type BaseDistance = IntegerAsn1;

/// `GeneralSubtree ::= SEQUENCE { base GeneralName, minimum [0] BaseDistance DEFAULT 0, maximum [1] BaseDistance
/// OPTIONAL }` (RFC 5280, 4.2.1.10)
///
/// Minimum is read from 0 to 255 alone.
#[derive(Debug, Drop, PartialEq, Eq)]
pub struct GeneralSubtree {
    pub base: GeneralName,
    pub minimum: Implicit<0, DefaultNumber<0>>,
    pub maximum: Option<Implicit<1, BaseDistance>>,
}

impl Sequence for GeneralSubtree {
    ghost asn1 = { general_subtree };

    ghost value = { general_subtree_value };

    fn with_components<U: ComponentVisitor>(&self, visitor: &mut U) -> U::Out {
        with_components_of!(self, visitor; GeneralSubtree { base, minimum DEFAULT, maximum OPTIONAL })
    }

    fn read_fields(alloc: Global, r: &mut Reader<'_>, nest: u8) -> Result<Self, Error> {
        read_fields_of!(alloc, r, nest; GeneralSubtree { base, minimum DEFAULT, maximum OPTIONAL })
    }

    fn clone_fields(&self, alloc: Global) -> Result<Self, Error> {
        clone_fields_of!(self, alloc; GeneralSubtree { base, minimum DEFAULT, maximum OPTIONAL })
    }

    ghost equal = { general_subtree_equal };
}

/// `GeneralSubtrees ::= SEQUENCE SIZE (1..MAX) OF GeneralSubtree` (RFC 5280, 4.2.1.10)
///
/// The size (1..MAX) isn't tested.
pub type GeneralSubtrees = Asn1SequenceOf<GeneralSubtree>;

/// `NameConstraints ::= SEQUENCE { permittedSubtrees [0] GeneralSubtrees OPTIONAL, excludedSubtrees [1]
/// GeneralSubtrees OPTIONAL }` (RFC 5280, 4.2.1.10)
#[derive(Debug, Drop, PartialEq, Eq)]
pub struct NameConstraints {
    pub permitted_subtrees: Option<Implicit<0, GeneralSubtrees>>,
    pub excluded_subtrees: Option<Implicit<1, GeneralSubtrees>>,
}

macro_rules! name_constraints_parts {
    ($by:ident($($with:ident),*)) => {
        $by!($($with),*; NameConstraints {
            permitted_subtrees OPTIONAL, excluded_subtrees OPTIONAL
        })
    };
}

impl Sequence for NameConstraints {
    ghost asn1 = { name_constraints };

    ghost value = { name_constraints_value };

    fn with_components<U: ComponentVisitor>(&self, visitor: &mut U) -> U::Out {
        name_constraints_parts!(with_components_of(self, visitor))
    }

    fn read_fields(alloc: Global, r: &mut Reader<'_>, nest: u8) -> Result<Self, Error> {
        name_constraints_parts!(read_fields_of(alloc, r, nest))
    }

    fn clone_fields(&self, alloc: Global) -> Result<Self, Error> {
        name_constraints_parts!(clone_fields_of(self, alloc))
    }

    ghost equal = { name_constraints_equal };
}

/// `SkipCerts ::= INTEGER (0..MAX)` (RFC 5280, 4.2.1.11)
///
/// (0..MAX) isn't tested.
pub type SkipCerts = IntegerAsn1;

/// `PolicyConstraints ::= SEQUENCE { requireExplicitPolicy [0] SkipCerts OPTIONAL, inhibitPolicyMapping [1]
/// SkipCerts OPTIONAL }` (RFC 5280, 4.2.1.11)
#[derive(Debug, Drop, PartialEq, Eq)]
pub struct PolicyConstraints {
    pub require_explicit_policy: Option<Implicit<0, SkipCerts>>,
    pub inhibit_policy_mapping: Option<Implicit<1, SkipCerts>>,
}

macro_rules! policy_constraints_parts {
    ($by:ident($($with:ident),*)) => {
        $by!($($with),*; PolicyConstraints {
            require_explicit_policy OPTIONAL, inhibit_policy_mapping OPTIONAL
        })
    };
}

impl Sequence for PolicyConstraints {
    ghost asn1 = { policy_constraints };

    ghost value = { policy_constraints_value };

    fn with_components<U: ComponentVisitor>(&self, visitor: &mut U) -> U::Out {
        policy_constraints_parts!(with_components_of(self, visitor))
    }

    fn read_fields(alloc: Global, r: &mut Reader<'_>, nest: u8) -> Result<Self, Error> {
        policy_constraints_parts!(read_fields_of(alloc, r, nest))
    }

    fn clone_fields(&self, alloc: Global) -> Result<Self, Error> {
        policy_constraints_parts!(clone_fields_of(self, alloc))
    }

    ghost equal = { policy_constraints_equal };
}

/// `DistributionPointName ::= CHOICE { fullName [0] GeneralNames, nameRelativeToCRLIssuer [1]
/// RelativeDistinguishedName }` (RFC 5280, 4.2.1.13)
#[derive(Debug, Drop, PartialEq, Eq)]
pub enum DistributionPointName {
    FullName(GeneralNames),
    NameRelativeToCrlIssuer(RelativeDistinguishedName),
}

type DistributionPointNameChoice = Either<
    Implicit<0, GeneralNames>,
    Implicit<1, RelativeDistinguishedName>,
>;

impl Asn1Type for DistributionPointName {
    ghost asn1 = { distribution_point_name };

    ghost value = { distribution_point_name_value };

    fn with_encoded<U: ComponentVisitor>(&self, visitor: &mut U) -> U::Out {
        match self {
            DistributionPointName::FullName(x) => visitor.visit(&Under::<0xA0, _>(x)),
            DistributionPointName::NameRelativeToCrlIssuer(x) => visitor.visit(&Under::<0xA1, _>(
                x,
            )),
        }
    }

    fn read_encoded(alloc: Global, r: &mut Reader<'_>, nest: u8) -> Result<Self, Error> {
        let choice: DistributionPointNameChoice = Either::read_one(alloc, r, nest)?;
        match choice {
            Either::First(x) => {
                let Implicit(x) = x;
                Ok(DistributionPointName::FullName(x))
            }
            Either::Second(x) => {
                let Implicit(x) = x;
                Ok(DistributionPointName::NameRelativeToCrlIssuer(x))
            }
        }
    }

    fn is_first_tag(tag: u8) -> bool {
        tag == 0xA0 || tag == 0xA1
    }

    fn clone_value(&self, alloc: Global) -> Result<Self, Error> {
        match self {
            DistributionPointName::FullName(x) => Ok(DistributionPointName::FullName(x.try_clone(
                alloc,
            )?)),
            DistributionPointName::NameRelativeToCrlIssuer(x) => Ok(
                DistributionPointName::NameRelativeToCrlIssuer(x.try_clone(alloc)?),
            ),
        }
    }

    ghost equal = { distribution_point_name_equal };
}

/// `ReasonFlags ::= BIT STRING { unused(0), keyCompromise(1), cACompromise(2), affiliationChanged(3),
/// superseded(4), cessationOfOperation(5), certificateHold(6), privilegeWithdrawn(7), aACompromise(8) }` (RFC
/// 5280, 4.2.1.13)
///
/// Zero bits at the end are kept (X.690, 11.2.2).
pub type ReasonFlags = BitStringAsn1;

/// The bit `unused` of `ReasonFlags`.
pub const REASON_FLAGS_UNUSED: usize = 0;

/// The bit `keyCompromise` of `ReasonFlags`.
pub const REASON_FLAGS_KEY_COMPROMISE: usize = 1;

/// The bit `cACompromise` of `ReasonFlags`.
pub const REASON_FLAGS_CA_COMPROMISE: usize = 2;

/// The bit `affiliationChanged` of `ReasonFlags`.
pub const REASON_FLAGS_AFFILIATION_CHANGED: usize = 3;

/// The bit `superseded` of `ReasonFlags`.
pub const REASON_FLAGS_SUPERSEDED: usize = 4;

/// The bit `cessationOfOperation` of `ReasonFlags`.
pub const REASON_FLAGS_CESSATION_OF_OPERATION: usize = 5;

/// The bit `certificateHold` of `ReasonFlags`.
pub const REASON_FLAGS_CERTIFICATE_HOLD: usize = 6;

/// The bit `privilegeWithdrawn` of `ReasonFlags`.
pub const REASON_FLAGS_PRIVILEGE_WITHDRAWN: usize = 7;

/// The bit `aACompromise` of `ReasonFlags`.
pub const REASON_FLAGS_AA_COMPROMISE: usize = 8;

/// Whether the bit `unused` of `ReasonFlags` is 1.
pub fn reason_flags_unused(bits: &ReasonFlags) -> bool
    ensures { IsTrue result ↔ HasBit (contents_of bits.now.0) 0 }
{
    has_bit(bits, 0)
}

/// Whether the bit `keyCompromise` of `ReasonFlags` is 1.
pub fn reason_flags_key_compromise(bits: &ReasonFlags) -> bool
    ensures { IsTrue result ↔ HasBit (contents_of bits.now.0) 1 }
{
    has_bit(bits, 1)
}

/// Whether the bit `cACompromise` of `ReasonFlags` is 1.
pub fn reason_flags_ca_compromise(bits: &ReasonFlags) -> bool
    ensures { IsTrue result ↔ HasBit (contents_of bits.now.0) 2 }
{
    has_bit(bits, 2)
}

/// Whether the bit `affiliationChanged` of `ReasonFlags` is 1.
pub fn reason_flags_affiliation_changed(bits: &ReasonFlags) -> bool
    ensures { IsTrue result ↔ HasBit (contents_of bits.now.0) 3 }
{
    has_bit(bits, 3)
}

/// Whether the bit `superseded` of `ReasonFlags` is 1.
pub fn reason_flags_superseded(bits: &ReasonFlags) -> bool
    ensures { IsTrue result ↔ HasBit (contents_of bits.now.0) 4 }
{
    has_bit(bits, 4)
}

/// Whether the bit `cessationOfOperation` of `ReasonFlags` is 1.
pub fn reason_flags_cessation_of_operation(bits: &ReasonFlags) -> bool
    ensures { IsTrue result ↔ HasBit (contents_of bits.now.0) 5 }
{
    has_bit(bits, 5)
}

/// Whether the bit `certificateHold` of `ReasonFlags` is 1.
pub fn reason_flags_certificate_hold(bits: &ReasonFlags) -> bool
    ensures { IsTrue result ↔ HasBit (contents_of bits.now.0) 6 }
{
    has_bit(bits, 6)
}

/// Whether the bit `privilegeWithdrawn` of `ReasonFlags` is 1.
pub fn reason_flags_privilege_withdrawn(bits: &ReasonFlags) -> bool
    ensures { IsTrue result ↔ HasBit (contents_of bits.now.0) 7 }
{
    has_bit(bits, 7)
}

/// Whether the bit `aACompromise` of `ReasonFlags` is 1.
pub fn reason_flags_aa_compromise(bits: &ReasonFlags) -> bool
    ensures { IsTrue result ↔ HasBit (contents_of bits.now.0) 8 }
{
    has_bit(bits, 8)
}

/// `DistributionPoint ::= SEQUENCE { distributionPoint [0] DistributionPointName OPTIONAL, reasons [1] ReasonFlags
/// OPTIONAL, cRLIssuer [2] GeneralNames OPTIONAL }` (RFC 5280, 4.2.1.13)
#[derive(Debug, Drop, PartialEq, Eq)]
pub struct DistributionPoint {
    pub distribution_point: Option<Explicit<0, DistributionPointName>>,
    pub reasons: Option<Implicit<1, ReasonFlags>>,
    pub crl_issuer: Option<Implicit<2, GeneralNames>>,
}

macro_rules! distribution_point_parts {
    ($by:ident($($with:ident),*)) => {
        $by!($($with),*; DistributionPoint {
            distribution_point OPTIONAL, reasons OPTIONAL, crl_issuer OPTIONAL
        })
    };
}

impl Sequence for DistributionPoint {
    ghost asn1 = { distribution_point };

    ghost value = { distribution_point_value };

    fn with_components<U: ComponentVisitor>(&self, visitor: &mut U) -> U::Out {
        distribution_point_parts!(with_components_of(self, visitor))
    }

    fn read_fields(alloc: Global, r: &mut Reader<'_>, nest: u8) -> Result<Self, Error> {
        distribution_point_parts!(read_fields_of(alloc, r, nest))
    }

    fn clone_fields(&self, alloc: Global) -> Result<Self, Error> {
        distribution_point_parts!(clone_fields_of(self, alloc))
    }

    ghost equal = { distribution_point_equal };
}

/// `CRLDistributionPoints ::= SEQUENCE SIZE (1..MAX) OF DistributionPoint` (RFC 5280, 4.2.1.13)
///
/// The size (1..MAX) isn't tested.
pub type CrlDistributionPoints = Asn1SequenceOf<DistributionPoint>;

/// `KeyPurposeId ::= OBJECT IDENTIFIER` (RFC 5280, 4.2.1.12)
pub type KeyPurposeId = ObjectIdentifierAsn1;

/// `ExtKeyUsageSyntax ::= SEQUENCE SIZE (1..MAX) OF KeyPurposeId` (RFC 5280, 4.2.1.12)
///
/// The size (1..MAX) isn't tested.
pub type ExtKeyUsageSyntax = Asn1SequenceOf<KeyPurposeId>;

/// `InhibitAnyPolicy ::= SkipCerts` (RFC 5280, 4.2.1.14)
pub type InhibitAnyPolicy = SkipCerts;

/// `FreshestCRL ::= CRLDistributionPoints` (RFC 5280, 4.2.1.15)
pub type FreshestCrl = CrlDistributionPoints;

/// `AccessDescription ::= SEQUENCE { accessMethod OBJECT IDENTIFIER, accessLocation GeneralName }` (RFC 5280,
/// 4.2.2.1)
#[derive(Debug, Drop, PartialEq, Eq)]
pub struct AccessDescription {
    pub access_method: ObjectIdentifierAsn1,
    pub access_location: GeneralName,
}

impl Sequence for AccessDescription {
    ghost asn1 = { access_description };

    ghost value = { access_description_value };

    fn with_components<U: ComponentVisitor>(&self, visitor: &mut U) -> U::Out {
        with_components_of!(self, visitor; AccessDescription { access_method, access_location })
    }

    fn read_fields(alloc: Global, r: &mut Reader<'_>, nest: u8) -> Result<Self, Error> {
        read_fields_of!(alloc, r, nest; AccessDescription { access_method, access_location })
    }

    fn clone_fields(&self, alloc: Global) -> Result<Self, Error> {
        clone_fields_of!(self, alloc; AccessDescription { access_method, access_location })
    }

    ghost equal = { access_description_equal };
}

/// `AuthorityInfoAccessSyntax ::= SEQUENCE SIZE (1..MAX) OF AccessDescription` (RFC 5280, 4.2.2.1)
///
/// The size (1..MAX) isn't tested.
pub type AuthorityInfoAccessSyntax = Asn1SequenceOf<AccessDescription>;

/// `SubjectInfoAccessSyntax ::= SEQUENCE SIZE (1..MAX) OF AccessDescription` (RFC 5280, 4.2.2.2)
///
/// The size (1..MAX) isn't tested.
pub type SubjectInfoAccessSyntax = Asn1SequenceOf<AccessDescription>;

/// `CRLNumber ::= INTEGER (0..MAX)` (RFC 5280, 5.2.3)
///
/// (0..MAX) isn't tested.
pub type CrlNumber = IntegerAsn1;

/// `BaseCRLNumber ::= CRLNumber` (RFC 5280, 5.2.4)
pub type BaseCrlNumber = CrlNumber;

/// `IssuingDistributionPoint ::= SEQUENCE { distributionPoint [0] DistributionPointName OPTIONAL,
/// onlyContainsUserCerts [1] BOOLEAN DEFAULT FALSE, onlyContainsCACerts [2] BOOLEAN DEFAULT FALSE, onlySomeReasons
/// [3] ReasonFlags OPTIONAL, indirectCRL [4] BOOLEAN DEFAULT FALSE, onlyContainsAttributeCerts [5] BOOLEAN DEFAULT
/// FALSE }` (RFC 5280, 5.2.5)
#[derive(Debug, Drop, PartialEq, Eq)]
pub struct IssuingDistributionPoint {
    pub distribution_point: Option<Explicit<0, DistributionPointName>>,
    pub only_contains_user_certs: Implicit<1, DefaultFalse>,
    pub only_contains_ca_certs: Implicit<2, DefaultFalse>,
    pub only_some_reasons: Option<Implicit<3, ReasonFlags>>,
    pub indirect_crl: Implicit<4, DefaultFalse>,
    pub only_contains_attribute_certs: Implicit<5, DefaultFalse>,
}

macro_rules! issuing_distribution_point_parts {
    ($by:ident($($with:ident),*)) => {
        $by!($($with),*; IssuingDistributionPoint {
            distribution_point OPTIONAL, only_contains_user_certs DEFAULT, only_contains_ca_certs DEFAULT,
            only_some_reasons OPTIONAL, indirect_crl DEFAULT, only_contains_attribute_certs DEFAULT
        })
    };
}

impl Sequence for IssuingDistributionPoint {
    ghost asn1 = { issuing_distribution_point };

    ghost value = { issuing_distribution_point_value };

    fn with_components<U: ComponentVisitor>(&self, visitor: &mut U) -> U::Out {
        issuing_distribution_point_parts!(with_components_of(self, visitor))
    }

    fn read_fields(alloc: Global, r: &mut Reader<'_>, nest: u8) -> Result<Self, Error> {
        issuing_distribution_point_parts!(read_fields_of(alloc, r, nest))
    }

    fn clone_fields(&self, alloc: Global) -> Result<Self, Error> {
        issuing_distribution_point_parts!(clone_fields_of(self, alloc))
    }

    ghost equal = { issuing_distribution_point_equal };
}

/// `CRLReason ::= ENUMERATED { unspecified(0), keyCompromise(1), cACompromise(2), affiliationChanged(3),
/// superseded(4), cessationOfOperation(5), certificateHold(6), removeFromCRL(8), privilegeWithdrawn(9),
/// aACompromise(10) }` (RFC 5280, 5.3.1)
#[derive(Clone, Copy, Debug, PartialEq, Eq)]
pub enum CrlReason {
    Unspecified,
    KeyCompromise,
    CaCompromise,
    AffiliationChanged,
    Superseded,
    CessationOfOperation,
    CertificateHold,
    RemoveFromCrl,
    PrivilegeWithdrawn,
    AaCompromise,
}

impl Enumerated for CrlReason {
    ghost numbers = { crl_reason_numbers };

    ghost number_of = { crl_reason_value };

    fn from_number(number: u8) -> Option<Self> {
        match number {
            0 => Some(CrlReason::Unspecified),
            1 => Some(CrlReason::KeyCompromise),
            2 => Some(CrlReason::CaCompromise),
            3 => Some(CrlReason::AffiliationChanged),
            4 => Some(CrlReason::Superseded),
            5 => Some(CrlReason::CessationOfOperation),
            6 => Some(CrlReason::CertificateHold),
            8 => Some(CrlReason::RemoveFromCrl),
            9 => Some(CrlReason::PrivilegeWithdrawn),
            10 => Some(CrlReason::AaCompromise),
            _ => None,
        }
    }

    fn number(&self) -> u8 {
        match self {
            CrlReason::Unspecified => 0,
            CrlReason::KeyCompromise => 1,
            CrlReason::CaCompromise => 2,
            CrlReason::AffiliationChanged => 3,
            CrlReason::Superseded => 4,
            CrlReason::CessationOfOperation => 5,
            CrlReason::CertificateHold => 6,
            CrlReason::RemoveFromCrl => 8,
            CrlReason::PrivilegeWithdrawn => 9,
            CrlReason::AaCompromise => 10,
        }
    }

    ghost low = { refl };

    ghost listed = { crl_reason_listed };
}

impl Leaf for CrlReason {
    ghost Value = { ℕ };

    ghost value = { crl_reason_value };

    ghost spelling = { numbers_in crl_reason_numbers };

    fn from_contents(alloc: Global, contents: &[u8]) -> Result<Self, Error> {
        enumerated_from_contents(alloc, contents)
    }
}

impl TaggedType for CrlReason {
    ghost asn1 = { crl_reason };

    ghost value = { crl_reason_value };

    ghost TAG = { 0x0A };

    const TAG: u8 = 0x0A;

    fn put_tagged<W: Writer>(&self, tag: u8, w: &mut W) -> Result<(), WriteError> {
        put_unsigned(tag, u32::from(self.number()), w)
    }

    #[tactic(auto, using(crate::specs::laws::Pkix1Implicit88::crl_reason_listed))]
    fn is_well_formed_at(&self, _limit: u8) -> bool {
        true
    }

    fn read_open_contents(alloc: Global, r: &mut Reader<'_>, nest: u8) -> Result<Self, Error> {
        read_leaf_contents(alloc, r, nest, 0x0A)
    }

    fn clone_value(&self, _alloc: Global) -> Result<Self, Error> {
        Ok(*self)
    }

    ghost tagged = { crl_reason.tagged };

    ghost equal = { crl_reason_equal };
}

/// `CertificateIssuer ::= GeneralNames` (RFC 5280, 5.3.3)
pub type CertificateIssuer = GeneralNames;

/// `InvalidityDate ::= GeneralizedTime` (RFC 5280, 5.3.2)
///
/// A GeneralizedTime with a fraction of a second is refused.
pub type InvalidityDate = GeneralizedTimeAsn1;

/// `id-ce`, 2.5.29, by its contents octets.
pub const ID_CE: [u8; 2] = [0x55, 0x1D];

/// `id-ce-subjectDirectoryAttributes`, 2.5.29.9, by its contents octets.
pub const ID_CE_SUBJECT_DIRECTORY_ATTRIBUTES: [u8; 3] = [0x55, 0x1D, 0x09];

/// `id-ce-subjectKeyIdentifier`, 2.5.29.14, by its contents octets.
pub const ID_CE_SUBJECT_KEY_IDENTIFIER: [u8; 3] = [0x55, 0x1D, 0x0E];

/// `id-ce-keyUsage`, 2.5.29.15, by its contents octets.
pub const ID_CE_KEY_USAGE: [u8; 3] = [0x55, 0x1D, 0x0F];

/// `id-ce-privateKeyUsagePeriod`, 2.5.29.16, by its contents octets.
pub const ID_CE_PRIVATE_KEY_USAGE_PERIOD: [u8; 3] = [0x55, 0x1D, 0x10];

/// `id-ce-subjectAltName`, 2.5.29.17, by its contents octets.
pub const ID_CE_SUBJECT_ALT_NAME: [u8; 3] = [0x55, 0x1D, 0x11];

/// `id-ce-issuerAltName`, 2.5.29.18, by its contents octets.
pub const ID_CE_ISSUER_ALT_NAME: [u8; 3] = [0x55, 0x1D, 0x12];

/// `id-ce-basicConstraints`, 2.5.29.19, by its contents octets.
pub const ID_CE_BASIC_CONSTRAINTS: [u8; 3] = [0x55, 0x1D, 0x13];

/// `id-ce-cRLNumber`, 2.5.29.20, by its contents octets.
pub const ID_CE_CRL_NUMBER: [u8; 3] = [0x55, 0x1D, 0x14];

/// `id-ce-cRLReasons`, 2.5.29.21, by its contents octets.
pub const ID_CE_CRL_REASONS: [u8; 3] = [0x55, 0x1D, 0x15];

/// `id-ce-invalidityDate`, 2.5.29.24, by its contents octets.
pub const ID_CE_INVALIDITY_DATE: [u8; 3] = [0x55, 0x1D, 0x18];

/// `id-ce-deltaCRLIndicator`, 2.5.29.27, by its contents octets.
pub const ID_CE_DELTA_CRL_INDICATOR: [u8; 3] = [0x55, 0x1D, 0x1B];

/// `id-ce-issuingDistributionPoint`, 2.5.29.28, by its contents octets.
pub const ID_CE_ISSUING_DISTRIBUTION_POINT: [u8; 3] = [0x55, 0x1D, 0x1C];

/// `id-ce-certificateIssuer`, 2.5.29.29, by its contents octets.
pub const ID_CE_CERTIFICATE_ISSUER: [u8; 3] = [0x55, 0x1D, 0x1D];

/// `id-ce-nameConstraints`, 2.5.29.30, by its contents octets.
pub const ID_CE_NAME_CONSTRAINTS: [u8; 3] = [0x55, 0x1D, 0x1E];

/// `id-ce-cRLDistributionPoints`, 2.5.29.31, by its contents octets.
pub const ID_CE_CRL_DISTRIBUTION_POINTS: [u8; 3] = [0x55, 0x1D, 0x1F];

/// `id-ce-certificatePolicies`, 2.5.29.32, by its contents octets.
pub const ID_CE_CERTIFICATE_POLICIES: [u8; 3] = [0x55, 0x1D, 0x20];

/// `id-ce-policyMappings`, 2.5.29.33, by its contents octets.
pub const ID_CE_POLICY_MAPPINGS: [u8; 3] = [0x55, 0x1D, 0x21];

/// `id-ce-authorityKeyIdentifier`, 2.5.29.35, by its contents octets.
pub const ID_CE_AUTHORITY_KEY_IDENTIFIER: [u8; 3] = [0x55, 0x1D, 0x23];

/// `id-ce-policyConstraints`, 2.5.29.36, by its contents octets.
pub const ID_CE_POLICY_CONSTRAINTS: [u8; 3] = [0x55, 0x1D, 0x24];

/// `id-ce-extKeyUsage`, 2.5.29.37, by its contents octets.
pub const ID_CE_EXT_KEY_USAGE: [u8; 3] = [0x55, 0x1D, 0x25];

/// `id-ce-freshestCRL`, 2.5.29.46, by its contents octets.
pub const ID_CE_FRESHEST_CRL: [u8; 3] = [0x55, 0x1D, 0x2E];

/// `id-ce-inhibitAnyPolicy`, 2.5.29.54, by its contents octets.
pub const ID_CE_INHIBIT_ANY_POLICY: [u8; 3] = [0x55, 0x1D, 0x36];

/// `id-pe-authorityInfoAccess`, 1.3.6.1.5.5.7.1.1, by its contents octets.
pub const ID_PE_AUTHORITY_INFO_ACCESS: [u8; 8] = [0x2B, 0x06, 0x01, 0x05, 0x05, 0x07, 0x01, 0x01];

/// `id-pe-subjectInfoAccess`, 1.3.6.1.5.5.7.1.11, by its contents octets.
pub const ID_PE_SUBJECT_INFO_ACCESS: [u8; 8] = [0x2B, 0x06, 0x01, 0x05, 0x05, 0x07, 0x01, 0x0B];
