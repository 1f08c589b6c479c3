//! What Authenticode says of a PE image.

ghost use Rattle.std.specs.Prelude.{◌≡◌, MatchResult};
ghost use Rattle.std.proofs.Common.{rules, arith};
ghost use Rattle.asn1_core_element.specs.declared.error.Error.TheVariants.{Memory};
ghost use Rattle.asn1_leaves.specs.Asn1.{BIT_STRING};
ghost use Rattle.asn1_leaves_strings.specs.Octets.{contents_of};
ghost use Rattle.pkcs7_content.specs.PeImages.{default_flags, spc_pe_image_data_value, spc_pe_image_data_equal};
ghost use Rattle.pkcs7_content.specs.PeImageLaws.{spc_pe_image_data};

use asn1_core::prelude::*;
use asn1_leaves::{BitString, BitStringAsn1};
use std::alloc::Global;
use x509_base::spc::SpcLink;

/// `SpcPeImageFlags ::= BIT STRING { includeResources (0), includeDebugInfo (1), includeImportAddressTable (2) }`
#[derive(Debug, Drop, PartialEq, Eq)]
pub struct SpcPeImageFlags(pub BitStringAsn1);

impl SpcPeImageFlags {
    /// The bits 1 0 0, for resources alone. Refuses by `Memory` alone.
    pub fn default_in(alloc: Global) -> Result<Self, Error>
        ensures { MatchResult result (λ f. contents_of f.0.0 ≡ default_flags) (λ e. e ≡ Memory) }
    {
        let bytes = Vec::from_slice(alloc, &[0x80])?;
        let bits = BitString::from_parts(5, bytes).unwrap();
        Ok(SpcPeImageFlags(BitStringAsn1(bits)))
    }
}

impl TaggedType for SpcPeImageFlags {
    ghost asn1 = { BIT_STRING };

    ghost value = { λ x. contents_of x.0.0 };

    ghost TAG = { 0x03 };

    const TAG: u8 = 0x03;

    fn put_tagged<W: Writer>(&self, tag: u8, w: &mut W) -> Result<(), WriteError> {
        self.0.put_as(tag, w)
    }

    fn is_well_formed_at(&self, limit: u8) -> bool {
        self.0.well_formed_at(limit)
    }

    fn read_open_contents(alloc: Global, r: &mut Reader<'_>, nest: u8) -> Result<Self, Error> {
        Ok(SpcPeImageFlags(BitStringAsn1::read_contents(alloc, r, nest)?))
    }

    #[inline(always)]
    fn clone_value(&self, alloc: Global) -> Result<Self, Error> {
        Ok(SpcPeImageFlags(self.0.try_clone(alloc)?))
    }

    ghost tagged = { BIT_STRING.tagged };

    ghost equal = { Prim.search rules };
}

/// `SpcPeImageData ::= SEQUENCE { flags SpcPeImageFlags DEFAULT { includeResources }, file [0] EXPLICIT SpcLink }`.
/// Absent flags are read as their default. Flags are always written, the default too.
#[derive(Debug, Drop, PartialEq, Eq)]
pub struct SpcPeImageData {
    pub flags: SpcPeImageFlags,
    pub file: ExplicitContextTag0<SpcLink>,
}

impl TaggedType for SpcPeImageData {
    ghost asn1 = { spc_pe_image_data };

    ghost value = { spc_pe_image_data_value };

    ghost TAG = { 0x30 };

    const TAG: u8 = 0x30;

    fn put_tagged<W: Writer>(&self, tag: u8, w: &mut W) -> Result<(), WriteError> {
        put_within(tag, &body_of!(self; flags, file), w)
    }

    fn is_well_formed_at(&self, limit: u8) -> bool {
        formed_of!(self, limit; flags, file)
    }

    fn read_open_contents(alloc: Global, r: &mut Reader<'_>, nest: u8) -> Result<Self, Error> {
        let components: types_of!(flags OPTIONAL, file) = read_inside(alloc, r, nest, 0x30)?;
        let fields_of!(spelled OPTIONAL, file) = components;
        match spelled {
            Some(flags) => Ok(SpcPeImageData { flags, file }),
            None => {
                let flags = SpcPeImageFlags::default_in(alloc)?;
                Ok(SpcPeImageData { flags, file })
            }
        }
    }

    #[inline(always)]
    fn clone_value(&self, alloc: Global) -> Result<Self, Error> {
        clone_of!(self, alloc; SpcPeImageData { flags, file })
    }

    ghost tagged = { spc_pe_image_data.tagged };

    ghost equal = { spc_pe_image_data_equal };
}
