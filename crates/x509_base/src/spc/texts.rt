//! Strings made from text.

ghost use Rattle.std.specs.Prelude.{◌≡◌, MatchResult, string_bytes};
ghost use Rattle.std.proofs.Common.{inl, inr};
ghost use Rattle.std.specs.Str.{chars};
ghost use Rattle.asn1_core_element.specs.declared.error.Error.TheVariants.{Memory};
ghost use Rattle.asn1_leaves_strings.specs.Octets.{octets_of_bmp};
ghost use Rattle.x509_base.specs.SpcTexts.{StringGives, obsolete};
ghost use Rattle.x509_base.specs.SpcLinks.{spc_string_value, spc_link_value};

use crate::spc::links::{File, SpcLink, SpcString};
use asn1_core::prelude::*;
use asn1_leaves::{BmpString, BmpStringAsn1, StringError};
use std::alloc::Global;

/// The octets of the text `<<<Obsolete>>>`.
const OBSOLETE: [u8; 28] = *b"\0<\0<\0<\0O\0b\0s\0o\0l\0e\0t\0e\0>\0>\0>";

impl SpcString {
    /// The text as a Unicode string.
    pub fn try_from_string(alloc: Global, text: String) -> Result<Self, StringError>
        ensures { StringGives (chars (string_bytes text)) result }
    {
        Ok(unicode(BmpString::from_text(alloc, text.as_str())?))
    }
}

impl File {
    /// The file `<<<Obsolete>>>`.
    #[tactic(auto, using(crate::proofs::Units::obsolete_is_bmp))]
    pub fn default_in(alloc: Global) -> Result<Self, Error>
        ensures { MatchResult result (λ f. spc_string_value f.0.0 ≡ inl obsolete) (λ e. e ≡ Memory) }
    {
        let octets = Vec::from_slice(alloc, &OBSOLETE)?;
        let text = BmpString::new(octets).unwrap();
        Ok(File(ExplicitContextTag2(unicode(text))))
    }
}

impl SpcLink {
    /// The file `<<<Obsolete>>>`.
    pub fn default_in(alloc: Global) -> Result<Self, Error>
        ensures { MatchResult result (λ l. spc_link_value l ≡ inr (inr (inl obsolete))) (λ e. e ≡ Memory) }
    {
        Ok(SpcLink::File(File::default_in(alloc)?))
    }
}

fn unicode(text: BmpString) -> SpcString
    ensures { spc_string_value result ≡ inl (octets_of_bmp text) }
{
    SpcString::Unicode(Optional(ImplicitContextTag0(BmpStringAsn1(text))))
}
