//! What a bag holds.

ghost use Rattle.std.specs.Prelude.{◌≡◌};
ghost use Rattle.std.proofs.Common.{inl};
ghost use Rattle.bag_writers.specs.Given.{HeldValue, held};
ghost use Rattle.bag_writers.specs.Values.{held_id, held_value};
ghost use Rattle.pkcs12_bags.specs.Oids.{oid};

use asn1_borrowed::{ElementRef, OctetsRef};
use asn1_core::prelude::*;
use pkcs12_bags::parts::oids::{
    CERTIFICATE_BAG, CRL_BAG, KEY_BAG, SAFE_CONTENTS_BAG, SECRET_BAG, SHROUDED_KEY_BAG,
    X509_CERTIFICATE, X509_CRL, octets_of_known,
};

/// What a bag holds. The variant determines `bagId` (RFC 7292, 4.2).
#[derive(Clone, Copy)]
pub enum Held<'a> {
    /// `keyBag`: the element of a `PrivateKeyInfo`.
    Key(&'a [u8]),
    /// `pkcs8ShroudedKeyBag`: the element of an `EncryptedPrivateKeyInfo`.
    ShroudedKey(&'a [u8]),
    /// `certBag` with an X.509 certificate: its octets.
    Certificate(&'a [u8]),
    /// `crlBag` with an X.509 revocation list: its octets.
    Crl(&'a [u8]),
    /// `secretBag`: the element of a `SecretBag`.
    Secret(&'a [u8]),
    /// `safeContentsBag`: the element of a `SafeContents`.
    SafeContents(&'a [u8]),
    /// A bag of any kind: one of another standard, say, or a certificate of another type than X.509.
    Other {
        /// The contents octets of the object identifier.
        id: &'a [u8],
        /// The element that is held, without the `[0]` around it.
        element: &'a [u8],
    },
}

/// The parts of a `CertBag` or `CRLBag` with an X.509 one (RFC 7292, 4.2.3 and 4.2.4).
type X509Parts<'a> = Required<KnownOid<'a>, Required<ExplicitContextTag0<OctetsRef<'a>>, End>>;

fn x509_parts<'a>(number: usize, octets: &'a [u8]) -> X509Parts<'a>
    ensures { ⟦<X509Parts<'static> as WriteComponents>⟧.value result ≡ (oid number, (octets.now, tt)) }
{
    Required(
        KnownOid(octets_of_known(number)),
        Required(ExplicitContextTag0(OctetsRef(octets)), End),
    )
}

impl<'a> Held<'a> {
    /// The contents octets of the kind's object identifier.
    pub fn id(&self) -> &'a [u8]
        ensures { result.now ≡ held_id self.now }
    {
        match self {
            Held::Key(_) => octets_of_known(KEY_BAG),
            Held::ShroudedKey(_) => octets_of_known(SHROUDED_KEY_BAG),
            Held::Certificate(_) => octets_of_known(CERTIFICATE_BAG),
            Held::Crl(_) => octets_of_known(CRL_BAG),
            Held::Secret(_) => octets_of_known(SECRET_BAG),
            Held::SafeContents(_) => octets_of_known(SAFE_CONTENTS_BAG),
            Held::Other { id, .. } => id,
        }
    }
}

impl DerSerialize for Held<'_> {
    ghost Value = { HeldValue };

    ghost value = { held_value };

    ghost format = { held };

    fn put<W: Writer>(&self, w: &mut W) -> Result<(), WriteError> {
        match self {
            Held::Certificate(octets) => put_within(0x30, &x509_parts(X509_CERTIFICATE, octets), w),
            Held::Crl(octets) => put_within(0x30, &x509_parts(X509_CRL, octets), w),
            Held::Key(element) => ElementRef(element).put(w),
            Held::ShroudedKey(element) => ElementRef(element).put(w),
            Held::Secret(element) => ElementRef(element).put(w),
            Held::SafeContents(element) => ElementRef(element).put(w),
            Held::Other { element, .. } => ElementRef(element).put(w),
        }
    }

    fn well_formed_at(&self, limit: u8) -> bool {
        match self {
            Held::Certificate(octets) => {
                x509_parts(X509_CERTIFICATE, octets).components_well_formed_at(limit)
            }
            Held::Crl(octets) => x509_parts(X509_CRL, octets).components_well_formed_at(limit),
            Held::Key(element) => ElementRef(element).well_formed_at(limit),
            Held::ShroudedKey(element) => ElementRef(element).well_formed_at(limit),
            Held::Secret(element) => ElementRef(element).well_formed_at(limit),
            Held::SafeContents(element) => ElementRef(element).well_formed_at(limit),
            Held::Other { element, .. } => ElementRef(element).well_formed_at(limit),
        }
    }
}
