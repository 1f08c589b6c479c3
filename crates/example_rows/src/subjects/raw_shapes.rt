//! Raw counterparts of the types of CMS and PKCS #12. These are no kinds of `derbox`.

use crate::checks::check_row as at;
use crate::rows::Row;
use std::alloc::Global;
use std::test::Fail;
use x509_containers::{
    Asn1RawDer, RawBagsPfx, RawEncapsulatedContentInfo, RawEnvelopedData, RawPkcs7Certificate,
    RawRecipientInfo, RawRevocationInfoChoices, RawSafeContents, RawSignedData, RawSignerInfo,
    RawUnsignedAttributes, SignerInfo, Utf16String,
};

/// What comes of a row, where the word names one of these types.
pub fn check_row(alloc: Global, word: &str, row: &Row) -> Option<Result<(), Fail>> {
    Some(match word {
        "rawbagspfx" => at::<RawBagsPfx>(alloc, row),
        "rawencapsulatedcontentinfo" => at::<RawEncapsulatedContentInfo>(alloc, row),
        "rawenvelopeddata" => at::<RawEnvelopedData>(alloc, row),
        "rawpkcs7certificate" => at::<RawPkcs7Certificate>(alloc, row),
        "rawpkcs7certificate-asn1rawder" => at::<RawPkcs7Certificate<Asn1RawDer>>(alloc, row),
        "rawpkcs7certificate-signerinfo" => at::<RawPkcs7Certificate<SignerInfo>>(alloc, row),
        "rawrecipientinfo" => at::<RawRecipientInfo>(alloc, row),
        "rawrevocationinfochoices" => at::<RawRevocationInfoChoices>(alloc, row),
        "rawsafecontents" => at::<RawSafeContents>(alloc, row),
        "rawsigneddata" => at::<RawSignedData>(alloc, row),
        "rawsignerinfo" => at::<RawSignerInfo>(alloc, row),
        "rawunsignedattributes" => at::<RawUnsignedAttributes>(alloc, row),
        "utf16string" => at::<Utf16String>(alloc, row),
        _ => return None,
    })
}
