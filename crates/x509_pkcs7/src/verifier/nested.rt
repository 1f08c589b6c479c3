//! Further Authenticode signatures of the same file, which a signer keeps in an unsigned attribute.

ghost use Rattle.std.specs.Prelude.{◌≡◌, ◌≢◌, ◌++◌, [], MatchResult, map};
ghost use Rattle.asn1_core_element.specs.declared.error.Error.TheVariants.{Memory};
ghost use Rattle.pkcs7_signed.specs.SignerValues.{values_value};
ghost use Rattle.x509_pkcs7.specs.Nested.{elements_among, nested_in, nested_in_signer};

use asn1_core::prelude::*;
use asn1_core_oid::is_oid_of;
use pkcs7_signed::{SignerInfo, UnsignedAttribute, UnsignedAttributeValue};
use std::alloc::Global;

/// `szOID_NESTED_SIGNATURE`
pub(crate) const NESTED_SIGNATURE: [u8; 10] = [
    0x2B, 0x06, 0x01, 0x04, 0x01, 0x82, 0x37, 0x02, 0x04, 0x01,
];

/// The nested signatures of a signer, in their order: all values of its unsigned attributes `1.3.6.1.4.1.311.2.4.1`,
/// each as it is. A value should be a `Pkcs7Certificate`, which `from_bytes` reads from its octets. None where there is no
/// such attribute. Refuses by `Memory` alone, and never where there is no nested signature.
pub fn nested_signatures(alloc: Global, signer: &SignerInfo) -> Result<Vec<&Asn1RawDer>, Error>
    ensures { MatchResult result
        (λ found. map (λ e. e.now.0.items) found.items ≡ nested_in_signer signer.now)
        (λ e. (e ≡ Memory) × (nested_in_signer signer.now ≢ [])) }
{
    let mut found = Vec::new(alloc);
    for attribute in &signer.unsigned_attrs.0.0 {
        push_all(&mut found, nested_of(attribute))?;
    }
    Ok(found)
}

/// Appends some elements. To append none is never refused.
#[tactic(auto, using(pkcs7_verifier::proofs::NotEmpty::has_item))]
pub(crate) fn push_all<'a>(
    found: &mut Vec<&'a Asn1RawDer>,
    elements: &'a [Asn1RawDer],
) -> Result<(), Error>
    ensures { MatchResult result
        (λ _. map (λ e. e.now.0.items) found.new.items ≡ map (λ e. e.now.0.items) found.old.items ++ map (λ e. e.0.items) elements.now)
        (λ e. (e ≡ Memory) × (elements.now ≢ [])) }
{
    for element in elements {
        found.push(element)?;
    }
    Ok(())
}

/// The values of an attribute that keeps nested signatures, of another none.
fn nested_of(attribute: &UnsignedAttribute) -> &[Asn1RawDer]
    ensures { map (λ e. e.0.items) result.now ≡ nested_in attribute.now }
{
    if is_oid_of(&attribute.ty.0, &NESTED_SIGNATURE) {
        elements_of(&attribute.value)
    } else {
        &[]
    }
}

/// Values that are kept as elements, of others none.
fn elements_of(values: &UnsignedAttributeValue) -> &[Asn1RawDer]
    ensures { map (λ e. e.0.items) result.now ≡ elements_among (values_value values.now) }
{
    match values {
        UnsignedAttributeValue::Unknown(elements) => elements.0.as_slice(),
        UnsignedAttributeValue::MsCounterSign(_) => &[],
        UnsignedAttributeValue::CounterSign(_) => &[],
    }
}
