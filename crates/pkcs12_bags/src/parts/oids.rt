//! The object identifiers that bags, attributes and contents are known by: a number each, and a table of their octets.

ghost use Rattle.std.specs.Prelude.{◌≡◌};
ghost use Rattle.pkcs12_bags.specs.Oids.{oid};
ghost use Rattle.pkcs12_bags.specs.laws.Oids.{oid_valid};

use asn1_choices::Named;
pub use asn1_core_oid::is_oid_of;
pub use asn1_core_oid::known::DATA;

/// `pkcs7-data` (RFC 2315, 8)
pub const PKCS7_DATA: usize = 0;
/// `pkcs7-encryptedData` (RFC 2315, 14)
pub const ENCRYPTED_DATA: usize = 1;
/// `pkcs-9-at-friendlyName` (RFC 2985, 5.5.1)
pub const FRIENDLY_NAME: usize = 2;
/// `pkcs-9-at-localKeyId` (RFC 2985, 5.5.2)
pub const LOCAL_KEY_ID: usize = 3;
/// `x509Certificate` (RFC 7292, 4.2.3)
pub const X509_CERTIFICATE: usize = 4;
/// `x509CRL` (RFC 7292, 4.2.4)
pub const X509_CRL: usize = 5;
/// `keyBag` (RFC 7292, 4.2)
pub const KEY_BAG: usize = 6;
/// `pkcs8ShroudedKeyBag` (RFC 7292, 4.2)
pub const SHROUDED_KEY_BAG: usize = 7;
/// `certBag` (RFC 7292, 4.2)
pub const CERTIFICATE_BAG: usize = 8;
/// `crlBag` (RFC 7292, 4.2)
pub const CRL_BAG: usize = 9;
/// `secretBag` (RFC 7292, 4.2)
pub const SECRET_BAG: usize = 10;
/// `safeContentsBag` (RFC 7292, 4.2)
pub const SAFE_CONTENTS_BAG: usize = 11;

/// Octets of an object identifier below `pkcs`, 1.2.840.113549.1.
macro_rules! pkcs {
    ($($octet:literal),*) => {
        &[0x2A, 0x86, 0x48, 0x86, 0xF7, 0x0D, 0x01, $($octet),*]
    };
}

/// The contents octets of the object identifier with that number. Each number past the last gives 2.999, which is
/// registered for examples and names nothing, so that a wrong number gives no known object identifier.
pub fn octets_of_known(number: usize) -> &'static [u8]
    ensures { result.now ≡ oid number }
{
    match number {
        PKCS7_DATA => &DATA,
        ENCRYPTED_DATA => pkcs!(0x07, 0x06),
        FRIENDLY_NAME => pkcs!(0x09, 0x14),
        LOCAL_KEY_ID => pkcs!(0x09, 0x15),
        X509_CERTIFICATE => pkcs!(0x09, 0x16, 0x01),
        X509_CRL => pkcs!(0x09, 0x17, 0x01),
        KEY_BAG => pkcs!(0x0C, 0x0A, 0x01, 0x01),
        SHROUDED_KEY_BAG => pkcs!(0x0C, 0x0A, 0x01, 0x02),
        CERTIFICATE_BAG => pkcs!(0x0C, 0x0A, 0x01, 0x03),
        CRL_BAG => pkcs!(0x0C, 0x0A, 0x01, 0x04),
        SECRET_BAG => pkcs!(0x0C, 0x0A, 0x01, 0x05),
        SAFE_CONTENTS_BAG => pkcs!(0x0C, 0x0A, 0x01, 0x06),
        _ => &[0x88, 0x37],
    }
}

/// Names the object identifier with that number.
#[derive(Drop)]
pub struct OidNumber<const N: usize>;

impl<const N: usize> Named for OidNumber<N> {
    ghost OID = { oid N };

    fn octets() -> &'static [u8] {
        octets_of_known(N)
    }

    ghost valid = { oid_valid N };
}
