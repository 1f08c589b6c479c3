//! Certificates and keys of a file.

ghost use Rattle.std.specs.Prelude.{◌≡◌, MatchResult, map};
ghost use Rattle.std.specs.List.{filter};
ghost use Rattle.asn1_core_element.specs.declared.error.Error.TheVariants.{Memory};
ghost use Rattle.pkcs12_bags.specs.BagValues.{bag_value};
ghost use Rattle.pkcs12_bags.specs.Selections.{is_certificate, is_key};
ghost use Rattle.x509_pkcs12.specs.Walks.{pfx_walk};

use crate::parsed::ParsedAuthenticatedSafeDataRepr;
use crate::pfxs::Pfx;
use asn1_core::{DerSerialize, Error};
use pkcs12_bags::safe_bags::{SafeBag, certificates_among, keys_among};
use std::alloc::Global;

impl Pfx<ParsedAuthenticatedSafeDataRepr> {
    /// The bags that hold certificates, of those that `all_bags` gives, in its order. Refuses by `Memory` alone.
    pub fn certificates(&self, alloc: Global) -> Result<Vec<&SafeBag>, Error>
        ensures { MatchResult result (λ bags. map (λ bag. bag_value bag.now) bags.items ≡ filter is_certificate (pfx_walk (⟦<Pfx<ParsedAuthenticatedSafeDataRepr> as DerSerialize>⟧.value self.now))) (λ e. e ≡ Memory) }
    {
        Ok(certificates_among(self.all_bags(alloc)?))
    }

    /// The bags that hold keys, plain or encrypted, alike.
    pub fn keys(&self, alloc: Global) -> Result<Vec<&SafeBag>, Error>
        ensures { MatchResult result (λ bags. map (λ bag. bag_value bag.now) bags.items ≡ filter is_key (pfx_walk (⟦<Pfx<ParsedAuthenticatedSafeDataRepr> as DerSerialize>⟧.value self.now))) (λ e. e ≡ Memory) }
    {
        Ok(keys_among(self.all_bags(alloc)?))
    }
}
