//! How signed data and their signers are written, tested, read and cloned.

ghost use Rattle.std.specs.Prelude.{◌≡◌, ◌↔◌, IsTrue, List, [], map, false, MatchResult};
ghost use Rattle.asn1_core.specs.Der.{less, set_of, Gives, GivesComponents, Clones};
ghost use Rattle.pkcs7_signed.specs.Heads.{signed_head_value, signed_parts_value};
ghost use Rattle.pkcs7_signed.specs.SignerLevels.{parts_of_signed};
ghost use Rattle.pkcs7_signed.specs.Signers.{Value, signers, SignedValue, signer, signed_data, signer_infos};
ghost use Rattle.pkcs7_signed.specs.SignerValues.{signer_value, signers_value, signed_value};
ghost use Rattle.asn1_core_element.specs.declared.error.Error.TheVariants.{Memory};
ghost use Rattle.pkcs7_signed.specs.Below.{ReadsSigners};
ghost use Rattle.pkcs7_signed.specs.laws.SignerLaws.{lawful_signed_data, lawful_signer_infos};
ghost use Rattle.pkcs7_signed.specs.SignerEqual.{signers_equal, signed_equal};
ghost use Rattle.pkcs7_signed.specs.declared.signers.SignedData.{out-SignedData};

use crate::boxed::{Boxed, in_box, opened};
use crate::heads::{SignedHead, put_two};
use crate::recursion::signer_info::{push_signer, read_boxed};
use crate::signers::{SignedData, SignerInfo, SignersInfos};
use asn1_core::prelude::*;
use asn1_core_format::{Tail, read_set_below_with, read_within_with};
use pkcs7_content::{CmsVersion, EncapsulatedContentInfo};
use pkcs7_signed_crl::{CertificateSet, DigestAlgorithmIdentifiers, RevocationInfoChoices};
use std::alloc::Global;

/// Signers a level down, at the end of signed data.
#[derive(Drop)]
struct SignersBelow(Asn1SetOf<SignerInfo>);

impl WriteComponents for SignersBelow {
    ghost Value = { List (Value signers) };

    ghost value = { λ x. map signer_value x.0.0.items };

    ghost format = { set_of (less signer) };

    fn put_components<W: Writer>(&self, w: &mut W) -> Result<(), WriteError> {
        self.0.put(w)
    }

    fn components_well_formed_at(&self, limit: u8) -> bool {
        signers_formed_below(&self.0, limit)
    }
}

type SignedTail = Omitted<CertificateSet, Maybe<RevocationInfoChoices, Tail<SignersBelow>>>;

type SignedParts = Required<
    CmsVersion,
    Required<DigestAlgorithmIdentifiers, Required<Boxed<EncapsulatedContentInfo>, SignedTail>>,
>;

impl SignedData {
    fn head(&self) -> SignedHead<'_>
        ensures { signed_head_value result ≡ parts_of_signed self.now tt }
    {
        SignedHead {
            version: self.version,
            digest_algorithms: &self.digest_algorithms,
            content_info: &self.content_info,
            certificates: &self.certificates.0,
            crls: &self.crls,
        }
    }
}

impl DerSerialize for SignedData {
    ghost Value = { SignedValue };

    ghost value = { signed_value };

    ghost format = { signed_data };

    #[cycle(put)]
    fn put<W: Writer>(&self, w: &mut W) -> Result<(), WriteError> {
        put_two(&self.head(), &self.signers_infos, w)
    }

    #[cycle(formed)]
    fn well_formed_at(&self, limit: u8) -> bool {
        if limit == 0 {
            return false;
        }
        if !self.head().well_formed_at(limit) {
            return false;
        }
        self.signers_infos.well_formed_at(limit - 1)
    }
}

/// Reads signed data.
pub(crate) fn read_signed_with<F: Fn(&mut Reader<'_>, u8) -> Result<Boxed<SignerInfo>, Error>>(
    alloc: Global,
    r: &mut Reader<'_>,
    nest: u8,
    by: &F,
) -> Result<Boxed<SignedData>, Error>
    requires sound { r.old.refused ≡ false }
    requires below { ReadsSigners (F.pre by.now) (F.post by.now) nest }
    ensures { Gives (λ x. signed_value x.0.value) signed_data nest r.old r.new result }
{
    if nest == 0 {
        return Err(Error::TooDeep);
    }
    let components = read_within_with::<SignedParts, _, _>(
        alloc,
        r,
        nest,
        0x30,
        &|s: &mut Reader<'_>|
            requires sound { s.old.refused ≡ false }
            requires below { ReadsSigners (F.pre by.now) (F.post by.now) nest }
            ensures { GivesComponents (λ x. map signer_value x.0.0.items) (set_of (less signer)) nest s.old s.new result }
        { read_signers_with(alloc, s, nest, by) },
    )?;
    let signed = signed_of(alloc, components)?;
    Ok(signed)
}

/// Signed data of their parts, in memory of their own. Refuses by `Memory` alone.
#[inline(never)]
fn signed_of(alloc: Global, components: SignedParts) -> Result<Boxed<SignedData>, Error>
    ensures { MatchResult result
        (λ x. signed_value x.0.value ≡ signed_parts_value components.0 components.1.0 components.1.1.0.0.value components.1.1.1.0 components.1.1.1.1.0 (map signer_value components.1.1.1.1.1.0.0.0.items))
        (λ e. e ≡ Memory) }
{
    let Required(version, Required(digest_algorithms, Required(content_info, rest))) = components;
    let Omitted(certificates, Maybe(crls, Tail(SignersBelow(signers)))) = rest;
    let signed = SignedData {
        version,
        digest_algorithms,
        content_info: content_info.open(),
        certificates: Optional(certificates),
        crls,
        signers_infos: SignersInfos(signers),
    };
    let signed = in_box(alloc, signed)?;
    Ok(signed)
}

impl DerDeserialize for SignedData {
    fn read(alloc: Global, r: &mut Reader<'_>, nest: u8) -> Result<Self, Error> {
        let signed = read_signed_with(
            alloc,
            r,
            nest,
            &|s: &mut Reader<'_>, below: u8|
                requires { s.old.refused ≡ false }
                ensures { Gives (λ b. signer_value b.0.value) signer below s.old s.new result }
            { read_boxed(alloc, s, below) },
        )?;
        Ok(signed.open())
    }

    fn begins(tag: u8) -> bool {
        tag == 0x30
    }

    ghost lawful = { lawful_signed_data };
}

impl EqualByText for SignedData {
    ghost equal_by_text = { signed_equal };
}

impl TryClone for SignedData {
    fn try_clone(&self, alloc: Global) -> Result<Self, Error> {
        let signers = self.signers_infos.try_clone(alloc)?;
        signed_with(self, signers, alloc)
    }
}

/// A clone of the signed data, with signers that are cloned. While these are, nothing else of it is held.
#[inline(never)]
pub(crate) fn signed_with(
    signed: &SignedData,
    signers_infos: SignersInfos,
    alloc: Global,
) -> Result<SignedData, Error>
    requires { signers_value signers_infos ≡ signers_value (out-SignedData signed.now).signers_infos }
    ensures { Clones signed_value signed.now result }
{
    Ok(SignedData {
        version: signed.version,
        digest_algorithms: signed.digest_algorithms.try_clone(alloc)?,
        content_info: signed.content_info.try_clone(alloc)?,
        certificates: signed.certificates.try_clone(alloc)?,
        crls: signed.crls.try_clone(alloc)?,
        signers_infos,
    })
}

impl DerSerialize for SignersInfos {
    ghost Value = { List (Value signers) };

    ghost value = { signers_value };

    ghost format = { signer_infos };

    #[cycle(put)]
    fn put<W: Writer>(&self, w: &mut W) -> Result<(), WriteError> {
        self.0.put(w)
    }

    #[cycle(formed)]
    fn well_formed_at(&self, limit: u8) -> bool {
        signers_formed_at(&self.0, limit)
    }
}

/// Whether there are no items.
pub(crate) fn is_none<T>(items: &Vec<T>) -> bool
    ensures { IsTrue result ↔ (items.now.items ≡ []) }
{
    items.is_empty()
}

/// Whether the signers are well-formed.
#[cycle(formed)]
fn signers_formed_at(set: &Asn1SetOf<SignerInfo>, limit: u8) -> bool
    ensures { IsTrue result ↔ signer_infos.IsWellFormed limit (map signer_value set.now.0.items) }
{
    for item in &set.0 {
        if !item.well_formed_at(limit) {
            return false;
        }
    }
    true
}

/// Whether the signers are well-formed one level down.
#[cycle(formed)]
pub(crate) fn signers_formed_below(set: &Asn1SetOf<SignerInfo>, limit: u8) -> bool
    ensures { IsTrue result ↔ (set_of (less signer)).IsWellFormed limit (map signer_value set.now.0.items) }
{
    if limit == 0 {
        return is_none(&set.0);
    }
    signers_formed_at(set, limit - 1)
}

/// Reads the signers of signed data, to the end of the open contents.
fn read_signers_with<F: Fn(&mut Reader<'_>, u8) -> Result<Boxed<SignerInfo>, Error>>(
    alloc: Global,
    r: &mut Reader<'_>,
    nest: u8,
    by: &F,
) -> Result<SignersBelow, Error>
    requires sound { r.old.refused ≡ false }
    requires below { ReadsSigners (F.pre by.now) (F.post by.now) nest }
    ensures { GivesComponents (λ x. map signer_value x.0.0.items) (set_of (less signer)) nest r.old r.new result }
{
    let signers = read_signers_below(alloc, r, nest, by)?;
    Ok(SignersBelow(Asn1SetOf(signers)))
}

/// Reads signers a level down, to the end of the open contents.
pub(crate) fn read_signers_below<F: Fn(&mut Reader<'_>, u8) -> Result<Boxed<SignerInfo>, Error>>(
    alloc: Global,
    r: &mut Reader<'_>,
    nest: u8,
    by: &F,
) -> Result<Vec<SignerInfo>, Error>
    requires sound { r.old.refused ≡ false }
    requires below { ReadsSigners (F.pre by.now) (F.post by.now) nest }
    ensures { GivesComponents (λ v. map signer_value v.items) (set_of (less signer)) nest r.old r.new result }
{
    let boxes = read_set_below_with(alloc, r, nest, by)?;
    let signers = opened(alloc, boxes)?;
    Ok(signers)
}

impl DerDeserialize for SignersInfos {
    fn read(alloc: Global, r: &mut Reader<'_>, nest: u8) -> Result<Self, Error> {
        Ok(SignersInfos(Asn1SetOf::read(alloc, r, nest)?))
    }

    fn begins(tag: u8) -> bool {
        tag == 0x31
    }

    ghost lawful = { lawful_signer_infos };
}

impl EqualByText for SignersInfos {
    ghost equal_by_text = { signers_equal };
}

impl TryClone for SignersInfos {
    fn try_clone(&self, alloc: Global) -> Result<Self, Error> {
        Ok(SignersInfos(cloned_signers(&self.0, alloc)?))
    }
}

/// Clones of the signers. Refuses by `Memory` alone.
#[cycle(copy)]
pub(crate) fn cloned_signers(
    set: &Asn1SetOf<SignerInfo>,
    alloc: Global,
) -> Result<Asn1SetOf<SignerInfo>, Error>
    ensures { Clones (λ s. map signer_value s.0.items) set.now result }
{
    let mut signers = Vec::with_capacity(alloc, set.0.len())?;
    for signer in &set.0 {
        let unsigned = signer.unsigned_attrs.0.try_clone(alloc)?;
        push_signer(&mut signers, signer, unsigned, alloc)?;
    }
    Ok(Asn1SetOf(signers))
}
