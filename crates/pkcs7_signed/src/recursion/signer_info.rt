//! How a signer is written, tested, read and cloned. Each signer a level down is read by a closure, which only the
//! signer's own `read` makes; so all else that reads is outside of the recursion.

ghost use Rattle.std.specs.Prelude.{◌≡◌, [], map, false, ◌<◌, MatchResult, ◌∷◌, ◌++◌};
ghost use Rattle.asn1_core.specs.Der.{less, set_or_none, Gives, GivesComponents, Clones};
ghost use Rattle.pkcs7_signed.specs.Heads.{signer_head_value};
ghost use Rattle.pkcs7_signed.specs.SignerLevels.{parts_of_signer};
ghost use Rattle.pkcs7_signed.specs.Signers.{Value, signers, signer, attribute};
ghost use Rattle.pkcs7_signed.specs.SignerValues.{signer_value, attribute_value, attributes_value};
ghost use Rattle.asn1_core_element.specs.declared.error.Error.TheVariants.{Memory};
ghost use Rattle.pkcs7_signed.specs.Below.{ReadsSigners};
ghost use Rattle.pkcs7_signed.specs.laws.SignerLaws.{lawful_signer};
ghost use Rattle.pkcs7_signed.specs.SignerEqual.{signer_equal};
ghost use Rattle.pkcs7_signed.specs.declared.signers.SignerInfo.{out-SignerInfo};

use crate::boxed::{Boxed, in_box};
use crate::heads::{SignerHead, put_two};
use crate::recursion::signed_data::is_none;
use crate::recursion::unsigned_attribute::read_attribute_with;
use crate::signers::{SignerInfo, UnsignedAttribute, UnsignedAttributes};
use asn1_core::prelude::*;
use asn1_core_format::{SetOrNone, Tail, read_set_or_none_with, read_within_with};
use pkcs7_content::CmsVersion;
use pkcs7_signed_crl::{
    Attributes, DigestAlgorithmIdentifier, SignatureAlgorithmIdentifier, SignatureValue,
    SignerIdentifier,
};
use std::alloc::Global;

type SignerTail = Required<
    SignatureAlgorithmIdentifier,
    Required<SignatureValue, Tail<SetOrNone<UnsignedAttribute>>>,
>;

type SignerParts = Required<
    FixedVersion<1>,
    Required<
        SignerIdentifier,
        Required<DigestAlgorithmIdentifier, Omitted<Attributes, SignerTail>>,
    >,
>;

impl SignerInfo {
    fn head(&self) -> SignerHead<'_>
        ensures { signer_head_value result ≡ parts_of_signer self.now tt }
    {
        SignerHead {
            version: self.version,
            sid: &self.sid,
            digest_algorithm: &self.digest_algorithm,
            signed_attrs: &self.signed_attrs.0,
            signature_algorithm: &self.signature_algorithm,
            signature: &self.signature,
        }
    }
}

impl DerSerialize for SignerInfo {
    ghost Value = { Value signers };

    ghost value = { signer_value };

    ghost format = { signer };

    #[cycle(put)]
    fn put<W: Writer>(&self, w: &mut W) -> Result<(), WriteError> {
        if is_none(&self.unsigned_attrs.0.0) {
            return put_within(0x30, &Alone(self.head()), w);
        }
        put_two(&self.head(), &self.unsigned_attrs.0, w)
    }

    #[cycle(formed)]
    fn well_formed_at(&self, limit: u8) -> bool {
        if !self.head().well_formed_at(limit) {
            return false;
        }
        self.unsigned_attrs.0.well_formed_at(limit)
    }
}

/// Reads a signer.
fn read_signer_with<F: Fn(&mut Reader<'_>, u8) -> Result<Boxed<SignerInfo>, Error>>(
    alloc: Global,
    r: &mut Reader<'_>,
    nest: u8,
    by: &F,
) -> Result<SignerInfo, Error>
    requires sound { r.old.refused ≡ false }
    requires below { ReadsSigners (F.pre by.now) (F.post by.now) nest }
    ensures { Gives signer_value signer nest r.old r.new result }
{
    let components = read_within_with::<SignerParts, _, _>(
        alloc,
        r,
        nest,
        0x30,
        &|s: &mut Reader<'_>|
            requires sound { s.old.refused ≡ false }
            requires below { ReadsSigners (F.pre by.now) (F.post by.now) nest }
            ensures { GivesComponents (λ x. (map attribute_value x.0.items, tt)) (set_or_none 0xA1 attribute) nest s.old s.new result }
        { read_unsigned_with(alloc, s, nest, by) },
    )?;
    let Required(_, Required(sid, Required(digest_algorithm, Omitted(signed, rest)))) = components;
    let Required(signature_algorithm, Required(signature, Tail(SetOrNone(unsigned)))) = rest;
    Ok(SignerInfo {
        version: CmsVersion::V1,
        sid,
        digest_algorithm,
        signed_attrs: Optional(signed),
        signature_algorithm,
        signature,
        unsigned_attrs: Optional(UnsignedAttributes(unsigned)),
    })
}

/// Reads unsigned attributes, or none, at the end of a signer.
fn read_unsigned_with<F: Fn(&mut Reader<'_>, u8) -> Result<Boxed<SignerInfo>, Error>>(
    alloc: Global,
    r: &mut Reader<'_>,
    nest: u8,
    by: &F,
) -> Result<SetOrNone<UnsignedAttribute>, Error>
    requires sound { r.old.refused ≡ false }
    requires below { ReadsSigners (F.pre by.now) (F.post by.now) nest }
    ensures { GivesComponents (λ x. (map attribute_value x.0.items, tt)) (set_or_none 0xA1 attribute) nest r.old r.new result }
{
    read_set_or_none_with(
        alloc,
        r,
        nest,
        &|s: &mut Reader<'_>|
            requires sound { s.old.refused ≡ false }
            requires below { ReadsSigners (F.pre by.now) (F.post by.now) nest }
            ensures { Gives attribute_value attribute nest s.old s.new result }
        { read_attribute_with(alloc, s, nest, by) },
    )
}

/// Reads a signer a level down, into memory of its own.
#[cycle(read)]
#[inline(never)]
pub(crate) fn read_boxed(
    alloc: Global,
    r: &mut Reader<'_>,
    nest: u8,
) -> Result<Boxed<SignerInfo>, Error>
    requires { r.old.refused ≡ false }
    ensures { Gives (λ b. signer_value b.0.value) signer nest r.old r.new result }
{
    let value = SignerInfo::read(alloc, r, nest)?;
    let kept = in_box(alloc, value)?;
    Ok(kept)
}

impl DerDeserialize for SignerInfo {
    #[cycle(read)]
    #[inline(never)]
    fn read(alloc: Global, r: &mut Reader<'_>, nest: u8) -> Result<Self, Error> {
        read_signer_with(
            alloc,
            r,
            nest,
            &|s: &mut Reader<'_>, below: u8|
                requires sound { s.old.refused ≡ false }
                requires less { below < nest }
                ensures { Gives (λ b. signer_value b.0.value) signer below s.old s.new result }
            {
                prove!(below < nest);
                read_boxed(alloc, s, below)
            },
        )
    }

    fn begins(tag: u8) -> bool {
        tag == 0x30
    }

    ghost lawful = { lawful_signer };
}

impl EqualByText for SignerInfo {
    ghost equal_by_text = { signer_equal };
}

impl TryClone for SignerInfo {
    fn try_clone(&self, alloc: Global) -> Result<Self, Error> {
        let unsigned = self.unsigned_attrs.0.try_clone(alloc)?;
        signer_with(self, unsigned, alloc)
    }
}

/// Puts a clone of the signer, with unsigned attributes that are cloned, after the others. Refuses by `Memory` alone.
#[inline(never)]
pub(crate) fn push_signer(
    signers: &mut Vec<SignerInfo>,
    signer: &SignerInfo,
    unsigned: UnsignedAttributes,
    alloc: Global,
) -> Result<(), Error>
    requires { attributes_value unsigned ≡ attributes_value (out-SignerInfo signer.now).unsigned_attrs.0 }
    ensures { MatchResult result
        (λ _. map signer_value signers.new.items ≡ map signer_value signers.old.items ++ signer_value signer.now ∷ [])
        (λ e. e ≡ Memory) }
{
    signers.push(signer_with(signer, unsigned, alloc)?)?;
    Ok(())
}

/// A clone of the signer, with unsigned attributes that are cloned. While these are, nothing else of it is held.
#[inline(never)]
fn signer_with(
    signer: &SignerInfo,
    unsigned: UnsignedAttributes,
    alloc: Global,
) -> Result<SignerInfo, Error>
    requires { attributes_value unsigned ≡ attributes_value (out-SignerInfo signer.now).unsigned_attrs.0 }
    ensures { Clones signer_value signer.now result }
{
    Ok(SignerInfo {
        version: signer.version,
        sid: signer.sid.try_clone(alloc)?,
        digest_algorithm: signer.digest_algorithm.try_clone(alloc)?,
        signed_attrs: signer.signed_attrs.try_clone(alloc)?,
        signature_algorithm: signer.signature_algorithm.try_clone(alloc)?,
        signature: signer.signature.try_clone(alloc)?,
        unsigned_attrs: Optional(unsigned),
    })
}
