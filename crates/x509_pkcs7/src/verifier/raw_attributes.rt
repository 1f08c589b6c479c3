//! The values of attributes by their object identifier, and what a signer of any version keeps so in its unsigned
//! attributes: nested signatures and time stamps.

ghost use Rattle.std.specs.Prelude.{◌≡◌, ◌≢◌, ◌++◌, [], MatchResult, map};
ghost use Rattle.asn1_core_element.specs.declared.error.Error.TheVariants.{Memory};
ghost use Rattle.x509_base.specs.Names.{attribute_value};
ghost use Rattle.x509_pkcs7.specs.RawAttributes.{values_if, values_with, nested_in_raw, time_stamps_among, time_stamps_in_raw};
ghost use Rattle.x509_pkcs7.specs.RawSigners.{raw_signer_info_value};

use crate::raw_signers::RawSignerInfo;
use crate::verifier::nested::{NESTED_SIGNATURE, push_all};
use asn1_core::prelude::*;
use asn1_core_oid::is_oid_of;
use std::alloc::Global;
use x509_base::Attribute;

/// `id-aa-timeStampToken` (RFC 3161, appendix A)
const TIME_STAMP_TOKEN: [u8; 11] = [
    0x2A, 0x86, 0x48, 0x86, 0xF7, 0x0D, 0x01, 0x09, 0x10, 0x02, 0x0E,
];

/// `szOID_RFC3161_counterSign`
const MICROSOFT_TIME_STAMP: [u8; 10] = [0x2B, 0x06, 0x01, 0x04, 0x01, 0x82, 0x37, 0x03, 0x03, 0x01];

/// All values of all attributes with an object identifier, which is given by its contents octets, in their order, each
/// as it is. None where no attribute has it. Refuses by `Memory` only, and never where there is no such value.
pub fn attribute_values<'a>(
    alloc: Global,
    attributes: &'a [Attribute],
    oid: &[u8],
) -> Result<Vec<&'a Asn1RawDer>, Error>
    ensures { MatchResult result
        (λ found. map (λ e. e.now.0.items) found.items ≡ values_with oid.now (map attribute_value attributes.now))
        (λ e. (e ≡ Memory) × (values_with oid.now (map attribute_value attributes.now) ≢ [])) }
{
    let mut found = Vec::new(alloc);
    push_values(&mut found, attributes, oid)?;
    Ok(found)
}

/// Appends these values. To append none is never refused.
fn push_values<'a>(
    found: &mut Vec<&'a Asn1RawDer>,
    attributes: &'a [Attribute],
    oid: &[u8],
) -> Result<(), Error>
    ensures { MatchResult result
        (λ _. map (λ e. e.now.0.items) found.new.items ≡ map (λ e. e.now.0.items) found.old.items ++ values_with oid.now (map attribute_value attributes.now))
        (λ e. (e ≡ Memory) × (values_with oid.now (map attribute_value attributes.now) ≢ [])) }
{
    for attribute in attributes {
        push_all(found, values_of(attribute, oid))?;
    }
    Ok(())
}

/// The values of an attribute with that object identifier, of another none.
fn values_of<'a>(attribute: &'a Attribute, oid: &[u8]) -> &'a [Asn1RawDer]
    ensures { map (λ e. e.0.items) result.now ≡ values_if oid.now (attribute_value attribute.now) }
{
    if is_oid_of(&attribute.ty.0, oid) {
        attribute.value.0.as_slice()
    } else {
        &[]
    }
}

/// Time stamps among attributes.
#[tactic(auto, using(crate::proofs::SomeValues::first_is_not_empty, crate::proofs::SomeValues::second_is_not_empty))]
fn time_stamps_among(alloc: Global, attributes: &[Attribute]) -> Result<Vec<&Asn1RawDer>, Error>
    ensures { MatchResult result
        (λ found. map (λ e. e.now.0.items) found.items ≡ time_stamps_among (map attribute_value attributes.now))
        (λ e. (e ≡ Memory) × (time_stamps_among (map attribute_value attributes.now) ≢ [])) }
{
    let mut found = Vec::new(alloc);
    push_values(&mut found, attributes, &TIME_STAMP_TOKEN)?;
    push_values(&mut found, attributes, &MICROSOFT_TIME_STAMP)?;
    Ok(found)
}

impl RawSignerInfo {
    /// The nested signatures, as `nested_signatures` returns those of a `SignerInfo`: all values of the unsigned
    /// attributes `1.3.6.1.4.1.311.2.4.1`, in their order. A value should be signed data, which `from_bytes` reads from
    /// its octets as `RawPkcs7Certificate`. Refuses by `Memory` only, and never where there is no nested signature.
    pub fn nested_signatures(&self, alloc: Global) -> Result<Vec<&Asn1RawDer>, Error>
        ensures { MatchResult result
            (λ found. map (λ e. e.now.0.items) found.items ≡ nested_in_raw (raw_signer_info_value self.now))
            (λ e. (e ≡ Memory) × (nested_in_raw (raw_signer_info_value self.now) ≢ [])) }
    {
        attribute_values(alloc, &self.unsigned_attrs.0.0, &NESTED_SIGNATURE)
    }

    /// The time stamps over the signature: all values of the unsigned attributes `id-aa-timeStampToken` (RFC 3161), and
    /// after these all of Microsoft's `1.3.6.1.4.1.311.3.3.1`, each in their order. A value should be signed data whose
    /// content is a `TstInfo`. Refuses by `Memory` only, and never where there is no time stamp.
    pub fn time_stamps(&self, alloc: Global) -> Result<Vec<&Asn1RawDer>, Error>
        ensures { MatchResult result
            (λ found. map (λ e. e.now.0.items) found.items ≡ time_stamps_in_raw (raw_signer_info_value self.now))
            (λ e. (e ≡ Memory) × (time_stamps_in_raw (raw_signer_info_value self.now) ≢ [])) }
    {
        time_stamps_among(alloc, &self.unsigned_attrs.0.0)
    }
}
