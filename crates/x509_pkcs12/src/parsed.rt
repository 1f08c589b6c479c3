//! The representation that reads the data.

ghost use Rattle.std.specs.Prelude.{map};
ghost use Rattle.std.proofs.Common.{refl};
ghost use Rattle.asn1_core.specs.Der.{list_equal};
ghost use Rattle.x509_pkcs12.specs.ContentInfos.{safe_contents_content_info_value};
ghost use Rattle.x509_pkcs12.specs.ContentInfosEqual.{safe_contents_content_info_equal};
ghost use Rattle.x509_pkcs12.specs.Parsed.{parsed_authenticated_safe_data_repr};

use crate::content_infos::SafeContentsContentInfo;
use crate::representations::AuthenticatedSafeDataRepr;
use asn1_core::prelude::*;
use std::alloc::Global;

/// `AuthenticatedSafe ::= SEQUENCE OF ContentInfo` (RFC 7292, 4.1).
#[derive(Debug, Drop, PartialEq, Eq)]
pub struct ParsedAuthenticatedSafeDataRepr {
    contents: Vec<SafeContentsContentInfo>,
}

impl Sequence for ParsedAuthenticatedSafeDataRepr {
    ghost asn1 = { parsed_authenticated_safe_data_repr };

    ghost value = { λ x. map safe_contents_content_info_value x.contents.items };

    fn with_components<U: ComponentVisitor>(&self, visitor: &mut U) -> U::Out {
        visitor.visit(&self.contents)
    }

    fn read_fields(alloc: Global, r: &mut Reader<'_>, nest: u8) -> Result<Self, Error> {
        let contents = ReadComponents::read_components(alloc, r, nest)?;
        Ok(ParsedAuthenticatedSafeDataRepr { contents })
    }

    #[inline(always)]
    fn clone_fields(&self, alloc: Global) -> Result<Self, Error> {
        clone_of!(self, alloc; ParsedAuthenticatedSafeDataRepr { contents })
    }

    ghost equal = { λ x y. list_equal _ _ safe_contents_content_info_equal x.contents.items y.contents.items };
}

impl AuthenticatedSafeDataRepr for ParsedAuthenticatedSafeDataRepr {
    type Repr = Vec<SafeContentsContentInfo>;

    ghost into = { λ x. x.contents };

    ghost from = { λ r. record { contents = r } };

    fn into_repr(self) -> Vec<SafeContentsContentInfo> {
        self.contents
    }

    fn from_repr(repr: Vec<SafeContentsContentInfo>) -> Self {
        ParsedAuthenticatedSafeDataRepr { contents: repr }
    }

    fn put_repr<W: Writer>(
        repr: &Vec<SafeContentsContentInfo>,
        w: &mut W,
    ) -> Result<(), WriteError> {
        put_within(0x30, repr, w)
    }

    fn repr_well_formed_at(repr: &Vec<SafeContentsContentInfo>, limit: u8) -> bool {
        repr.components_well_formed_at(limit)
    }

    ghost there = { λ x. refl };

    ghost back = { λ x. refl };

    ghost seen = { λ x y. (λ e. e, λ e. e) };
}
