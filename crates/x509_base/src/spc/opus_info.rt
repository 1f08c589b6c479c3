//! What a signature says of the program that it signs.

ghost use Rattle.std.proofs.Common.{rules};
ghost use Rattle.x509_base.specs.SpcLinks.{spc_sp_opus_info, spc_sp_opus_info_value};

use crate::spc::links::{SpcLink, SpcString};
use asn1_core::prelude::*;
use std::alloc::Global;

/// `SpcSpOpusInfo ::= SEQUENCE { programName [0] EXPLICIT SpcString OPTIONAL, moreInfo [1] EXPLICIT SpcLink OPTIONAL }`
#[derive(Debug, Drop, PartialEq, Eq)]
pub struct SpcSpOpusInfo {
    pub program_name: Option<ExplicitContextTag0<SpcString>>,
    pub more_info: Option<ExplicitContextTag1<SpcLink>>,
}

impl Sequence for SpcSpOpusInfo {
    ghost asn1 = { spc_sp_opus_info };

    ghost value = { spc_sp_opus_info_value };

    fn with_components<U: ComponentVisitor>(&self, visitor: &mut U) -> U::Out {
        with_components_of!(self, visitor; SpcSpOpusInfo { program_name OPTIONAL, more_info OPTIONAL })
    }

    fn read_fields(alloc: Global, r: &mut Reader<'_>, nest: u8) -> Result<Self, Error> {
        read_fields_of!(alloc, r, nest; SpcSpOpusInfo { program_name OPTIONAL, more_info OPTIONAL })
    }

    #[inline(always)]
    fn clone_fields(&self, alloc: Global) -> Result<Self, Error> {
        clone_fields_of!(self, alloc; SpcSpOpusInfo { program_name OPTIONAL, more_info OPTIONAL })
    }

    ghost equal = { Prim.search rules };
}
