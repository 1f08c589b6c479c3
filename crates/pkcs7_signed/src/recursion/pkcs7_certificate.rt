//! How signed data with their content type are written, tested, read and cloned.

ghost use Rattle.std.specs.Prelude.{◌≡◌, ◌↔◌, IsTrue, List, [], map, false, ℕ, MatchResult, ◌∷◌, ◌++◌};
ghost use Rattle.asn1_core.specs.Der.{octets_of, set_of, Gives, verbatim, GivesComponents, within, only_oid, lawful_only_oid, Clones};
ghost use Rattle.pkcs7_signed.specs.Signers.{Value, certificates, signer, pkcs7_certificate, signed_data, pkcs7_certificate_out};
ghost use Rattle.pkcs7_signed.specs.SignerValues.{signer_value, signers_value, pkcs7_certificate_value, signed_value};
ghost use Rattle.asn1_core_element.specs.declared.error.Error.TheVariants.{Memory};
ghost use Rattle.pkcs7_signed.specs.Below.{ReadsSigners};
ghost use Rattle.pkcs7_signed.specs.Oids.{signed_data_oid};
ghost use Rattle.pkcs7_signed.specs.laws.SignerLaws.{lawful_pkcs7_certificate};
ghost use Rattle.pkcs7_signed.specs.SignerEqual.{pkcs7_certificate_equal};
ghost use Rattle.pkcs7_signed.specs.declared.signers.Pkcs7Certificate.{out-Pkcs7Certificate};
ghost use Rattle.pkcs7_signed.specs.declared.signers.SignedData.{out-SignedData};

use crate::boxed::{Boxed, in_box, opened};
use crate::heads::put_two;
use crate::oids::{SIGNED_DATA, SignedDataType};
use crate::recursion::signed_data::{cloned_signers, read_signed_with, signed_with};
use crate::recursion::signer_info::read_boxed;
use crate::signers::{Pkcs7Certificate, SignedData, SignerInfo, SignersInfos};
use asn1_choices::{Named, OnlyOid};
use asn1_core::prelude::*;
use asn1_core_element::element::open_element;
use asn1_core_format::{SameLevel, Tail, read_set_with, read_within_with};
use asn1_core_oid::is_oid_of;
use std::alloc::Global;

type TaggedSignedData = Alone<ExplicitContextTag0<Boxed<SignedData>>>;

type Pkcs7CertificateParts = Required<OnlyOid<SignedDataType>, Tail<TaggedSignedData>>;

impl DerSerialize for Pkcs7Certificate {
    ghost Value = { Value certificates };

    ghost value = { pkcs7_certificate_value };

    ghost format = { pkcs7_certificate };

    #[cycle(put)]
    fn put<W: Writer>(&self, w: &mut W) -> Result<(), WriteError> {
        put_two(&self.oid, &self.signed_data, w)
    }

    #[cycle(formed)]
    fn well_formed_at(&self, limit: u8) -> bool {
        if !is_oid_of(&self.oid.0, &SIGNED_DATA) {
            return false;
        }
        self.signed_data.0.well_formed_at(limit)
    }
}

/// Whether the certificates are well-formed.
#[cycle(formed)]
pub(crate) fn pkcs7_certificates_formed_at(set: &Asn1SetOf<Pkcs7Certificate>, limit: u8) -> bool
    ensures { IsTrue result ↔ (set_of pkcs7_certificate).IsWellFormed limit (map pkcs7_certificate_value set.now.0.items) }
{
    for item in &set.0 {
        if !item.well_formed_at(limit) {
            return false;
        }
    }
    true
}

/// Reads time stamps, to the end of the open contents.
pub(crate) fn read_pkcs7_certificates_with<
    F: Fn(&mut Reader<'_>, u8) -> Result<Boxed<SignerInfo>, Error>,
>(alloc: Global, r: &mut Reader<'_>, nest: u8, by: &F) -> Result<Vec<Pkcs7Certificate>, Error>
    requires sound { r.old.refused ≡ false }
    requires below { ReadsSigners (F.pre by.now) (F.post by.now) nest }
    ensures { GivesComponents (λ v. map pkcs7_certificate_value v.items) (set_of pkcs7_certificate) nest r.old r.new result }
{
    let boxes = read_set_with::<SameLevel, _, _>(
        alloc,
        r,
        nest,
        &|s: &mut Reader<'_>|
            requires sound { s.old.refused ≡ false }
            requires below { ReadsSigners (F.pre by.now) (F.post by.now) nest }
            ensures { Gives (λ b. pkcs7_certificate_value b.0.value) pkcs7_certificate nest s.old s.new result }
        { read_pkcs7_certificate_with(alloc, s, nest, by) },
    )?;
    let certificates = opened(alloc, boxes)?;
    Ok(certificates)
}

/// Reads signed data with its content type. It isn't inlined, so that a counter signature takes none of its stack.
#[inline(never)]
fn read_pkcs7_certificate_with<F: Fn(&mut Reader<'_>, u8) -> Result<Boxed<SignerInfo>, Error>>(
    alloc: Global,
    r: &mut Reader<'_>,
    nest: u8,
    by: &F,
) -> Result<Boxed<Pkcs7Certificate>, Error>
    requires sound { r.old.refused ≡ false }
    requires below { ReadsSigners (F.pre by.now) (F.post by.now) nest }
    ensures { Gives (λ b. pkcs7_certificate_value b.0.value) pkcs7_certificate nest r.old r.new result }
{
    let components = read_within_with::<Pkcs7CertificateParts, _, _>(
        alloc,
        r,
        nest,
        0x30,
        &|s: &mut Reader<'_>|
            requires sound { s.old.refused ≡ false }
            requires below { ReadsSigners (F.pre by.now) (F.post by.now) nest }
            ensures { GivesComponents (λ x. signed_value x.0.0.0.value) (within 0xA0 signed_data) nest s.old s.new result }
        { read_tagged_with(alloc, s, nest, by) },
    )?;
    let pkcs7_certificate = pkcs7_certificate_of(alloc, components)?;
    Ok(pkcs7_certificate)
}

/// Signed data with their content type, of their parts, in memory of their own. Refuses by `Memory` alone.
#[inline(never)]
fn pkcs7_certificate_of(
    alloc: Global,
    components: Pkcs7CertificateParts,
) -> Result<Boxed<Pkcs7Certificate>, Error>
    ensures { MatchResult result
        (λ b. pkcs7_certificate_out (pkcs7_certificate_value b.0.value) ≡ (signed_data_oid, signed_value components.1.0.0.0.0.value))
        (λ e. e ≡ Memory) }
{
    let Required(_, Tail(Alone(ExplicitContextTag0(signed)))) = components;
    let octets = Vec::from_slice(alloc, SignedDataType::octets())?;
    let oid = ObjectIdentifier::from_checked(octets);
    let pkcs7_certificate = Pkcs7Certificate {
        oid: ObjectIdentifierAsn1(oid),
        signed_data: ExplicitContextTag0(signed.open()),
    };
    let pkcs7_certificate = in_box(alloc, pkcs7_certificate)?;
    Ok(pkcs7_certificate)
}

/// Reads signed data under their tag, to the end of the open contents.
fn read_tagged_with<F: Fn(&mut Reader<'_>, u8) -> Result<Boxed<SignerInfo>, Error>>(
    alloc: Global,
    r: &mut Reader<'_>,
    nest: u8,
    by: &F,
) -> Result<TaggedSignedData, Error>
    requires sound { r.old.refused ≡ false }
    requires below { ReadsSigners (F.pre by.now) (F.post by.now) nest }
    ensures { GivesComponents (λ x. signed_value x.0.0.0.value) (within 0xA0 signed_data) nest r.old r.new result }
{
    let outer = open_element(r, 0xA0)?;
    let signed = read_signed_with(alloc, r, nest, by)?;
    if r.left() > 0 {
        return Err(Error::Malformed);
    }
    r.end(outer)?;
    if r.left() > 0 {
        return Err(Error::Malformed);
    }
    Ok(Alone(ExplicitContextTag0(signed)))
}

impl DerDeserialize for Pkcs7Certificate {
    fn read(alloc: Global, r: &mut Reader<'_>, nest: u8) -> Result<Self, Error> {
        let pkcs7_certificate = read_pkcs7_certificate_with(
            alloc,
            r,
            nest,
            &|s: &mut Reader<'_>, below: u8|
                requires { s.old.refused ≡ false }
                ensures { Gives (λ b. signer_value b.0.value) signer below s.old s.new result }
            { read_boxed(alloc, s, below) },
        )?;
        Ok(pkcs7_certificate.open())
    }

    fn begins(tag: u8) -> bool {
        tag == 0x30
    }

    ghost lawful = { lawful_pkcs7_certificate };
}

impl EqualByText for Pkcs7Certificate {
    ghost equal_by_text = { pkcs7_certificate_equal };
}

impl TryClone for Pkcs7Certificate {
    fn try_clone(&self, alloc: Global) -> Result<Self, Error> {
        Ok(Pkcs7Certificate {
            oid: self.oid.try_clone(alloc)?,
            signed_data: ExplicitContextTag0(self.signed_data.0.try_clone(alloc)?),
        })
    }
}

/// Clones of the certificates. Refuses by `Memory` alone.
#[cycle(copy)]
pub(crate) fn cloned_pkcs7_certificates(
    set: &Asn1SetOf<Pkcs7Certificate>,
    alloc: Global,
) -> Result<Asn1SetOf<Pkcs7Certificate>, Error>
    ensures { Clones (λ s. map pkcs7_certificate_value s.0.items) set.now result }
{
    let mut certificates = Vec::with_capacity(alloc, set.0.len())?;
    for pkcs7_certificate in &set.0 {
        let below = cloned_signers(&pkcs7_certificate.signed_data.0.signers_infos.0, alloc)?;
        push_pkcs7_certificate(
            &mut certificates,
            pkcs7_certificate,
            SignersInfos(below),
            alloc,
        )?;
    }
    Ok(Asn1SetOf(certificates))
}

/// Puts a clone of the signed data and their content type, with signers that are cloned, after the others. Refuses by
/// `Memory` alone.
#[inline(never)]
fn push_pkcs7_certificate(
    certificates: &mut Vec<Pkcs7Certificate>,
    pkcs7_certificate: &Pkcs7Certificate,
    below: SignersInfos,
    alloc: Global,
) -> Result<(), Error>
    requires { signers_value below ≡ signers_value (out-SignedData (out-Pkcs7Certificate pkcs7_certificate.now).signed_data.0).signers_infos }
    ensures { MatchResult result
        (λ _. map pkcs7_certificate_value certificates.new.items ≡ map pkcs7_certificate_value certificates.old.items ++ pkcs7_certificate_value pkcs7_certificate.now ∷ [])
        (λ e. e ≡ Memory) }
{
    let oid = pkcs7_certificate.oid.try_clone(alloc)?;
    let signed_data = signed_with(&pkcs7_certificate.signed_data.0, below, alloc)?;
    certificates.push(Pkcs7Certificate {
        oid,
        signed_data: ExplicitContextTag0(signed_data),
    })?;
    Ok(())
}
