//! The digests of a PE image's pages, which Authenticode may sign beside that of the whole image.

ghost use Rattle.std.specs.Prelude.{◌≡◌};
ghost use Rattle.asn1_core.specs.Der.{option_value};
ghost use Rattle.x509_base.specs.SpcLinks.{spc_link_value};
ghost use Rattle.x509_pkcs7.specs.Pages.{page_hashes, page_hashes_value, page_hashes_equal, page_hashes_in, page_hashes_linked, digest_len_of, entry_in, entry_of};

use asn1_core::prelude::*;
use pkcs7_content::SpcPeImageData;
use std::alloc::Global;
use x509_base::spc::{SpcLink, SpcSerializedObject};

/// The class of page hashes.
const PAGE_HASH_CLASS: [u8; 16] = [
    0xA6, 0xB5, 0x86, 0xD5, 0xB4, 0xA1, 0x24, 0x66, 0xAE, 0x05, 0xA2, 0x17, 0xDA, 0x8E, 0x60, 0xD6,
];

/// `SPC_PE_IMAGE_PAGE_HASHES_V1_OBJID`, for SHA-1.
const BY_SHA1: [u8; 10] = [0x2B, 0x06, 0x01, 0x04, 0x01, 0x82, 0x37, 0x02, 0x03, 0x01];

/// `SPC_PE_IMAGE_PAGE_HASHES_V2_OBJID`, for SHA-256.
const BY_SHA256: [u8; 10] = [0x2B, 0x06, 0x01, 0x04, 0x01, 0x82, 0x37, 0x02, 0x03, 0x02];

/// The octets that are the page hashes of an image, which `from_bytes` reads as `Asn1SetOf<PageHashes>`: the data of the
/// serialized object that the image has as its file, if the class of that object is that of page hashes.
pub fn page_hash_octets(image: &SpcPeImageData) -> Option<&[u8]>
    ensures { option_value (λ octets. octets.now) result ≡ page_hashes_linked (spc_link_value image.now.file.0) }
{
    match &image.file.0 {
        SpcLink::Moniker(object) => serialized_page_hashes(&object.0.0.0),
        SpcLink::Url(_) => None,
        SpcLink::File(_) => None,
    }
}

/// The data of an object of that class.
fn serialized_page_hashes(object: &SpcSerializedObject) -> Option<&[u8]>
    ensures { option_value (λ octets. octets.now) result ≡ page_hashes_in object.now.class_id.0.0.items object.now.serialized_data.0.items }
{
    if object.class_id.0.0.as_slice() == PAGE_HASH_CLASS.as_slice() {
        Some(object.serialized_data.0.as_slice())
    } else {
        None
    }
}

/// Page hashes by one digest algorithm: `SpcAttributeTypeAndOptionalValue ::= SEQUENCE { type OBJECT IDENTIFIER, value
/// SET OF OCTET STRING }`.
#[derive(Debug, Drop, PartialEq, Eq)]
pub struct PageHashes {
    /// `1.3.6.1.4.1.311.2.3.1` for SHA-1, `1.3.6.1.4.1.311.2.3.2` for SHA-256.
    pub ty: ObjectIdentifierAsn1,
    /// A table for the image, by name a set: for each page, in their order, its offset in the file (four octets, the
    /// least significant first) and its digest; at last the offset of the end with a digest of zeros.
    pub value: Asn1SetOf<OctetStringAsn1>,
}

impl PageHashes {
    /// An entry of the table, from 0 on: an offset in the file, in octets, and a digest. `None` from the end of the table
    /// on, and where the object identifier is neither of the two. A set of several tables has the entries of the first.
    pub fn entry(&self, index: usize) -> Option<(u32, &[u8])>
        ensures { option_value (λ e. (e.0, e.1.now)) result ≡ entry_of (page_hashes_value self.now) index }
    {
        let len = digest_len(self.ty.0.octets())?;
        match self.value.0.as_slice() {
            [table, ..] => entry_at(table.0.as_slice(), len, index),
            [] => None,
        }
    }
}

/// How many octets a digest has.
fn digest_len(oid: &[u8]) -> Option<usize>
    ensures { result ≡ digest_len_of oid.now }
{
    if oid == BY_SHA1.as_slice() {
        Some(20)
    } else if oid == BY_SHA256.as_slice() {
        Some(32)
    } else {
        None
    }
}

/// An entry of a table with digests of so many octets.
fn entry_at(table: &[u8], digest_len: usize, index: usize) -> Option<(u32, &[u8])>
    ensures { option_value (λ e. (e.0, e.1.now)) result ≡ entry_in digest_len table.now index }
{
    let len = digest_len.checked_add(4)?;
    let start = len.checked_mul(index)?;
    let end = start.checked_add(len)?;
    match table.get(start..end)? {
        [a, b, c, d, digest @ ..] => Some((u32::from_le_bytes([*a, *b, *c, *d]), digest)),
        _ => None,
    }
}

impl Sequence for PageHashes {
    ghost asn1 = { page_hashes };

    ghost value = { page_hashes_value };

    fn with_components<U: ComponentVisitor>(&self, visitor: &mut U) -> U::Out {
        with_components_of!(self, visitor; PageHashes { ty, value })
    }

    fn read_fields(alloc: Global, r: &mut Reader<'_>, nest: u8) -> Result<Self, Error> {
        read_fields_of!(alloc, r, nest; PageHashes { ty, value })
    }

    fn clone_fields(&self, alloc: Global) -> Result<Self, Error> {
        clone_fields_of!(self, alloc; PageHashes { ty, value })
    }

    ghost equal = { page_hashes_equal };
}
