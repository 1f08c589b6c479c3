//! All bags of a file, those in bags too.

ghost use Rattle.std.specs.Prelude.{◌≡◌, MatchResult, map};
ghost use Rattle.std.specs.List.{flat_map};
ghost use Rattle.asn1_core_element.specs.declared.error.Error.TheVariants.{Memory};
ghost use Rattle.pkcs12_bags.specs.BagValues.{bag_value};
ghost use Rattle.x509_pkcs12.specs.ContentInfos.{safe_contents_content_info_value};
ghost use Rattle.x509_pkcs12.specs.Walks.{content_walk, pfx_walk};

use crate::auth_safes::AuthenticatedSafeContentInfo;
use crate::content_infos::SafeContentsContentInfo;
use crate::parsed::ParsedAuthenticatedSafeDataRepr;
use crate::pfxs::Pfx;
use asn1_core::{DerSerialize, Error};
use pkcs12_bags::safe_bags::SafeBag;
use std::alloc::Global;

impl Pfx<ParsedAuthenticatedSafeDataRepr> {
    /// All bags of its contents in order, those in bags too, a bag before the bags in it. Encrypted contents, and
    /// content of another type, give none. Refuses by `Memory` alone.
    pub fn all_bags(&self, alloc: Global) -> Result<Vec<&SafeBag>, Error>
        ensures { MatchResult result (λ bags. map (λ bag. bag_value bag.now) bags.items ≡ pfx_walk (⟦<Pfx<ParsedAuthenticatedSafeDataRepr> as DerSerialize>⟧.value self.now)) (λ e. e ≡ Memory) }
    {
        match &self.auth_safe {
            AuthenticatedSafeContentInfo::Data(contents) => bags_of_contents(alloc, contents),
            AuthenticatedSafeContentInfo::Unknown { .. } => Ok(Vec::new(alloc)),
        }
    }
}

fn bags_of_contents(
    alloc: Global,
    contents: &Vec<SafeContentsContentInfo>,
) -> Result<Vec<&SafeBag>, Error>
    ensures { MatchResult result (λ bags. map (λ bag. bag_value bag.now) bags.items ≡ flat_map content_walk (map safe_contents_content_info_value contents.now.items)) (λ e. e ≡ Memory) }
{
    let mut bags = Vec::new(alloc);
    for content in contents {
        if let SafeContentsContentInfo::Data(held) = content {
            let found = held.all_bags(alloc)?;
            bags.extend_from_slice(found.as_slice())?;
        }
    }
    Ok(bags)
}
