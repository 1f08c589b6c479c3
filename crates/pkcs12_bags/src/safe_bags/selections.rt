//! Certificates and keys among bags, and what ties one to the other.

ghost use Rattle.std.specs.Prelude.{◌≡◌, Some, None, MatchOption, MatchResult, map};
ghost use Rattle.std.specs.List.{filter, find};
ghost use Rattle.asn1_core.specs.Der.{option_value};
ghost use Rattle.asn1_core_element.specs.declared.error.Error.TheVariants.{Memory};
ghost use Rattle.pkcs12_bags.specs.BagParts.{x509_bag_value};
ghost use Rattle.pkcs12_bags.specs.BagValues.{bag_value, contents_value};
ghost use Rattle.pkcs12_bags.specs.Selections.{certificate_of, x509_octets, is_certificate, is_key, has_key_id};
ghost use Rattle.pkcs12_bags.specs.BagWalks.{walk};

use crate::parts::CertificateBag;
use crate::safe_bags::bags::{SafeBag, SafeBagKind, SafeContents};
use asn1_core::Error;
use std::alloc::Global;

impl SafeBag {
    fn certificate(&self) -> Option<&CertificateBag>
        ensures { option_value (λ held. x509_bag_value held.now) result ≡ certificate_of (bag_value self.now) }
    {
        match &self.kind {
            SafeBagKind::Certificate(held) => Some(held),
            _ => None,
        }
    }

    /// The DER of the X.509 certificate that it holds, which isn't looked into. `None` where it holds none.
    pub fn x509_certificate(&self) -> Option<&[u8]>
        ensures { option_value (λ der. der.now) result ≡ x509_octets (certificate_of (bag_value self.now)) }
    {
        match self.certificate()? {
            CertificateBag::X509(der) => Some(der.0.as_slice()),
            CertificateBag::Unknown { .. } => None,
        }
    }

    /// Whether it holds a certificate of any type.
    pub fn is_certificate(&self) -> bool
        ensures { result ≡ is_certificate (bag_value self.now) }
    {
        self.certificate().is_some()
    }

    /// Whether it holds a key, plain or encrypted.
    pub fn is_key(&self) -> bool
        ensures { result ≡ is_key (bag_value self.now) }
    {
        matches!(
            &self.kind,
            SafeBagKind::Key(_) | SafeBagKind::EncryptedKey(_)
        )
    }

    /// Whether its first `localKeyId` is this one.
    pub fn has_local_key_id(&self, id: &[u8]) -> bool
        ensures { result ≡ has_key_id id.now (bag_value self.now) }
    {
        match self.local_key_id() {
            Some(own) => own == id,
            None => false,
        }
    }
}

impl SafeContents {
    /// The bags that hold certificates, of those that `all_bags` gives, in its order. Refuses by `Memory` alone.
    pub fn certificates(&self, alloc: Global) -> Result<Vec<&SafeBag>, Error>
        ensures { MatchResult result (λ bags. map (λ bag. bag_value bag.now) bags.items ≡ filter is_certificate (walk (contents_value self.now))) (λ e. e ≡ Memory) }
    {
        Ok(certificates_among(self.all_bags(alloc)?))
    }

    /// The bags that hold keys, plain or encrypted, alike.
    pub fn keys(&self, alloc: Global) -> Result<Vec<&SafeBag>, Error>
        ensures { MatchResult result (λ bags. map (λ bag. bag_value bag.now) bags.items ≡ filter is_key (walk (contents_value self.now))) (λ e. e ≡ Memory) }
    {
        Ok(keys_among(self.all_bags(alloc)?))
    }
}

/// Those that hold certificates, in their order.
pub fn certificates_among(bags: Vec<&SafeBag>) -> Vec<&SafeBag>
    ensures { map (λ bag. bag_value bag.now) result.items ≡ filter is_certificate (map (λ bag. bag_value bag.now) bags.entry.items) }
{
    let mut kept = bags;
    kept.retain(|bag| bag.is_certificate());
    kept
}

/// Those that hold keys, in their order.
pub fn keys_among(bags: Vec<&SafeBag>) -> Vec<&SafeBag>
    ensures { map (λ bag. bag_value bag.now) result.items ≡ filter is_key (map (λ bag. bag_value bag.now) bags.entry.items) }
{
    let mut kept = bags;
    kept.retain(|bag| bag.is_key());
    kept
}

/// The first of some bags with that local key identifier: among certificates, the one that belongs to the key with it.
pub fn first_with_key_id<'a>(bags: &[&'a SafeBag], id: &[u8]) -> Option<&'a SafeBag>
    ensures { MatchOption result (find (has_key_id id.now) (map (λ bag. bag_value bag.now) bags.now) ≡ None)
        (λ bag. find (has_key_id id.now) (map (λ bag. bag_value bag.now) bags.now) ≡ Some (bag_value bag.now)) }
{
    for bag in bags {
        if bag.has_local_key_id(id) {
            return Some(bag);
        }
    }
    None
}
