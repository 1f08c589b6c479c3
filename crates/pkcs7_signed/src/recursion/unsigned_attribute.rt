//! How unsigned attributes, which hold time stamps and countersignatures, are written, tested, read and cloned.

ghost use Rattle.std.specs.Prelude.{◌≡◌, ◌↔◌, IsTrue, List, false};
ghost use Rattle.asn1_core.specs.Der.{octets_of, less, Gives, GivesComponents};
ghost use Rattle.pkcs7_signed.specs.Components.{UnsignedValues, kind_of, IsOfKind, values_components};
ghost use Rattle.pkcs7_signed.specs.Signers.{Value, signers, attributes, certificates, signer, attribute, pkcs7_certificate, unsigned_attributes, values};
ghost use Rattle.pkcs7_signed.specs.SignerValues.{signer_value, attribute_value, attributes_value, values_value};
ghost use Rattle.pkcs7_signed.specs.Below.{ReadsSigners};
ghost use Rattle.pkcs7_signed.specs.laws.SignerLaws.{lawful_attribute, lawful_unsigned_attributes};
ghost use Rattle.pkcs7_signed.specs.SignerEqual.{attributes_equal, attribute_equal, values_equal};

use crate::boxed::Boxed;
use crate::heads::put_two;
use crate::recursion::pkcs7_certificate::{
    cloned_pkcs7_certificates, pkcs7_certificates_formed_at, read_pkcs7_certificates_with,
};
use crate::recursion::signed_data::{cloned_signers, read_signers_below, signers_formed_below};
use crate::recursion::signer_info::read_boxed;
use crate::signers::{
    Kind, SignerInfo, UnsignedAttribute, UnsignedAttributeValue, UnsignedAttributes,
};
use asn1_core::prelude::*;
use asn1_core_element::element::open_element;
use std::alloc::Global;

impl DerSerialize for UnsignedAttributes {
    ghost Value = { List (Value attributes) };

    ghost value = { attributes_value };

    ghost format = { unsigned_attributes };

    #[cycle(put)]
    fn put<W: Writer>(&self, w: &mut W) -> Result<(), WriteError> {
        put_within(0xA1, &self.0, w)
    }

    #[cycle(formed)]
    fn well_formed_at(&self, limit: u8) -> bool {
        for item in &self.0 {
            if !item.well_formed_at(limit) {
                return false;
            }
        }
        true
    }
}

impl DerDeserialize for UnsignedAttributes {
    fn read(alloc: Global, r: &mut Reader<'_>, nest: u8) -> Result<Self, Error> {
        Ok(UnsignedAttributes(read_within(alloc, r, nest, 0xA1)?))
    }

    fn begins(tag: u8) -> bool {
        tag == 0xA1
    }

    ghost lawful = { lawful_unsigned_attributes };
}

impl EqualByText for UnsignedAttributes {
    ghost equal_by_text = { attributes_equal };
}

impl TryClone for UnsignedAttributes {
    #[cycle(copy)]
    fn try_clone(&self, alloc: Global) -> Result<Self, Error> {
        let mut attributes = Vec::with_capacity(alloc, self.0.len())?;
        for attribute in &self.0 {
            attributes.push(attribute.try_clone(alloc)?)?;
        }
        Ok(UnsignedAttributes(attributes))
    }
}

impl DerSerialize for UnsignedAttribute {
    ghost Value = { Value attributes };

    ghost value = { attribute_value };

    ghost format = { attribute };

    #[cycle(put)]
    fn put<W: Writer>(&self, w: &mut W) -> Result<(), WriteError> {
        put_two(&self.ty, &self.value, w)
    }

    #[cycle(formed)]
    fn well_formed_at(&self, limit: u8) -> bool {
        if !self.value.fits(&self.ty.0) {
            return false;
        }
        self.value.well_formed_at(limit)
    }
}

/// Reads an unsigned attribute.
pub(crate) fn read_attribute_with<F: Fn(&mut Reader<'_>, u8) -> Result<Boxed<SignerInfo>, Error>>(
    alloc: Global,
    r: &mut Reader<'_>,
    nest: u8,
    by: &F,
) -> Result<UnsignedAttribute, Error>
    requires sound { r.old.refused ≡ false }
    requires below { ReadsSigners (F.pre by.now) (F.post by.now) nest }
    ensures { Gives attribute_value attribute nest r.old r.new result }
{
    let outer = open_element(r, 0x30)?;
    let ty = ObjectIdentifierAsn1::read(alloc, r, nest)?;
    let value = read_values_with(ty.0.octets(), alloc, r, nest, by)?;
    r.end(outer)?;
    Ok(UnsignedAttribute { ty, value })
}

impl DerDeserialize for UnsignedAttribute {
    fn read(alloc: Global, r: &mut Reader<'_>, nest: u8) -> Result<Self, Error> {
        read_attribute_with(
            alloc,
            r,
            nest,
            &|s: &mut Reader<'_>, below: u8|
                requires { s.old.refused ≡ false }
                ensures { Gives (λ b. signer_value b.0.value) signer below s.old s.new result }
            { read_boxed(alloc, s, below) },
        )
    }

    fn begins(tag: u8) -> bool {
        tag == 0x30
    }

    ghost lawful = { lawful_attribute };
}

impl EqualByText for UnsignedAttribute {
    ghost equal_by_text = { attribute_equal };
}

impl TryClone for UnsignedAttribute {
    #[cycle(copy)]
    fn try_clone(&self, alloc: Global) -> Result<Self, Error> {
        clone_of!(self, alloc; UnsignedAttribute { ty, value })
    }
}

impl UnsignedAttributeValue {
    /// Whether these are what the object identifier says.
    fn fits(&self, oid: &ObjectIdentifier) -> bool
        ensures { IsTrue result ↔ IsOfKind (kind_of (octets_of oid.now)) (values_value self.now) }
    {
        let kind = Kind::with_oid(oid.octets());
        match self {
            Self::MsCounterSign(_) => kind == Kind::MsCounterSign,
            Self::CounterSign(_) => kind == Kind::CounterSign,
            Self::Unknown(_) => kind == Kind::Foreign,
        }
    }
}

impl DerSerialize for UnsignedAttributeValue {
    ghost Value = { UnsignedValues (Value certificates) (Value signers) };

    ghost value = { values_value };

    ghost format = { values };

    #[cycle(put)]
    fn put<W: Writer>(&self, w: &mut W) -> Result<(), WriteError> {
        match self {
            Self::MsCounterSign(certificates) => certificates.put(w),
            Self::CounterSign(signers) => signers.put(w),
            Self::Unknown(elements) => elements.put(w),
        }
    }

    #[cycle(formed)]
    fn well_formed_at(&self, limit: u8) -> bool {
        match self {
            Self::MsCounterSign(certificates) => pkcs7_certificates_formed_at(certificates, limit),
            Self::CounterSign(signers) => signers_formed_below(signers, limit),
            Self::Unknown(elements) => elements.0.components_well_formed_at(limit),
        }
    }
}

/// Reads the values of an unsigned attribute whose object identifier has these contents octets.
fn read_values_with<F: Fn(&mut Reader<'_>, u8) -> Result<Boxed<SignerInfo>, Error>>(
    oid: &[u8],
    alloc: Global,
    r: &mut Reader<'_>,
    nest: u8,
    by: &F,
) -> Result<UnsignedAttributeValue, Error>
    requires sound { r.old.refused ≡ false }
    requires below { ReadsSigners (F.pre by.now) (F.post by.now) nest }
    ensures { GivesComponents values_value (values_components pkcs7_certificate (less signer) (kind_of oid.now)) nest r.old r.new result }
{
    match Kind::with_oid(oid) {
        Kind::MsCounterSign => {
            let certificates = read_pkcs7_certificates_with(alloc, r, nest, by)?;
            Ok(UnsignedAttributeValue::MsCounterSign(Asn1SetOf(certificates)))
        }
        Kind::CounterSign => {
            let signers = read_signers_below(alloc, r, nest, by)?;
            Ok(UnsignedAttributeValue::CounterSign(Asn1SetOf(signers)))
        }
        Kind::Foreign => {
            let Alone(elements) = Alone::<Asn1SetOf<Asn1RawDer>>::read_components(alloc, r, nest)?;
            Ok(UnsignedAttributeValue::Unknown(elements))
        }
    }
}

impl EqualByText for UnsignedAttributeValue {
    ghost equal_by_text = { values_equal };
}

impl TryClone for UnsignedAttributeValue {
    #[cycle(copy)]
    fn try_clone(&self, alloc: Global) -> Result<Self, Error> {
        match self {
            Self::MsCounterSign(set) => Ok(Self::MsCounterSign(cloned_pkcs7_certificates(
                set, alloc,
            )?)),
            Self::CounterSign(set) => Ok(Self::CounterSign(cloned_signers(set, alloc)?)),
            Self::Unknown(elements) => Ok(Self::Unknown(elements.try_clone(alloc)?)),
        }
    }
}
