//! Known object identifiers, each by its contents octets, and making one of them.

ghost use Rattle.std.specs.Prelude.{◌≡◌, MatchResult};
ghost use Rattle.std.proofs.Common.{refl};
ghost use Rattle.asn1_core_element.specs.declared.error.Error.TheVariants.{Memory};
ghost use Rattle.asn1_core.specs.Der.{IsOid, oid_from_test, octets_of};
ghost use Rattle.pkcs12_algs.specs.Oids.{pbes2_oid, pbkdf2_oid};

use asn1_choices::Named;
use asn1_core::{Error, ObjectIdentifier};
use std::alloc::Global;

/// `id-sha1` (RFC 8017, appendix B.1)
pub(crate) const SHA1: &[u8] = &[0x2B, 0x0E, 0x03, 0x02, 0x1A];

/// `id-sha224` (RFC 5754, 2.1)
pub(crate) const SHA224: &[u8] = &[0x60, 0x86, 0x48, 0x01, 0x65, 0x03, 0x04, 0x02, 0x04];

/// `id-sha256` (RFC 5754, 2.2)
pub(crate) const SHA256: &[u8] = &[0x60, 0x86, 0x48, 0x01, 0x65, 0x03, 0x04, 0x02, 0x01];

/// `id-sha384` (RFC 5754, 2.3)
pub(crate) const SHA384: &[u8] = &[0x60, 0x86, 0x48, 0x01, 0x65, 0x03, 0x04, 0x02, 0x02];

/// `id-sha512` (RFC 5754, 2.4)
pub(crate) const SHA512: &[u8] = &[0x60, 0x86, 0x48, 0x01, 0x65, 0x03, 0x04, 0x02, 0x03];

/// `id-hmacWithSHA1` (RFC 8018, appendix B.1.1)
pub(crate) const HMAC_WITH_SHA1: &[u8] = &[0x2A, 0x86, 0x48, 0x86, 0xF7, 0x0D, 0x02, 0x07];

/// `id-hmacWithSHA224` (RFC 8018, appendix B.1.2)
pub(crate) const HMAC_WITH_SHA224: &[u8] = &[0x2A, 0x86, 0x48, 0x86, 0xF7, 0x0D, 0x02, 0x08];

/// `id-hmacWithSHA256` (RFC 8018, appendix B.1.2)
pub(crate) const HMAC_WITH_SHA256: &[u8] = &[0x2A, 0x86, 0x48, 0x86, 0xF7, 0x0D, 0x02, 0x09];

/// `id-hmacWithSHA384` (RFC 8018, appendix B.1.2)
pub(crate) const HMAC_WITH_SHA384: &[u8] = &[0x2A, 0x86, 0x48, 0x86, 0xF7, 0x0D, 0x02, 0x0A];

/// `id-hmacWithSHA512` (RFC 8018, appendix B.1.2)
pub(crate) const HMAC_WITH_SHA512: &[u8] = &[0x2A, 0x86, 0x48, 0x86, 0xF7, 0x0D, 0x02, 0x0B];

/// `pbeWithSHAAnd3-KeyTripleDES-CBC` (RFC 7292, appendix C)
pub(crate) const SHA_AND_3_KEY_3_DES_CBC: &[u8] = &[
    0x2A, 0x86, 0x48, 0x86, 0xF7, 0x0D, 0x01, 0x0C, 0x01, 0x03,
];

/// `pbewithSHAAnd40BitRC2-CBC` (RFC 7292, appendix C)
pub(crate) const SHA_AND_40_BIT_RC2_CBC: &[u8] = &[
    0x2A, 0x86, 0x48, 0x86, 0xF7, 0x0D, 0x01, 0x0C, 0x01, 0x06,
];

/// `id-PBKDF2` (RFC 8018, appendix A.2)
pub(crate) const PBKDF2: &[u8] = &[0x2A, 0x86, 0x48, 0x86, 0xF7, 0x0D, 0x01, 0x05, 0x0C];

/// `id-PBES2` (RFC 8018, appendix A.4)
pub(crate) const PBES2: &[u8] = &[0x2A, 0x86, 0x48, 0x86, 0xF7, 0x0D, 0x01, 0x05, 0x0D];

/// `aes128-CBC-PAD` (RFC 8018, appendix B.2.5)
pub(crate) const AES128_CBC_PAD: &[u8] = &[0x60, 0x86, 0x48, 0x01, 0x65, 0x03, 0x04, 0x01, 0x02];

/// `aes192-CBC-PAD` (RFC 8018, appendix B.2.5)
pub(crate) const AES192_CBC_PAD: &[u8] = &[0x60, 0x86, 0x48, 0x01, 0x65, 0x03, 0x04, 0x01, 0x16];

/// `aes256-CBC-PAD` (RFC 8018, appendix B.2.5)
pub(crate) const AES256_CBC_PAD: &[u8] = &[0x60, 0x86, 0x48, 0x01, 0x65, 0x03, 0x04, 0x01, 0x2A];

/// The object identifier with these contents octets.
pub(crate) fn known_oid(alloc: Global, octets: &[u8]) -> Result<ObjectIdentifier, Error>
    requires { IsOid octets.now }
    ensures { MatchResult result (λ oid. octets_of oid ≡ octets.now) (λ e. e ≡ Memory) }
{
    Ok(ObjectIdentifier::from_checked(Vec::from_slice(alloc, octets)?))
}

/// `id-PBKDF2`
#[derive(Drop)]
pub(crate) struct Pbkdf2;

impl Named for Pbkdf2 {
    ghost OID = { pbkdf2_oid };

    fn octets() -> &'static [u8] {
        PBKDF2
    }

    ghost valid = { oid_from_test pbkdf2_oid refl };
}

/// `id-PBES2`
#[derive(Drop)]
pub(crate) struct Pbes2;

impl Named for Pbes2 {
    ghost OID = { pbes2_oid };

    fn octets() -> &'static [u8] {
        PBES2
    }

    ghost valid = { oid_from_test pbes2_oid refl };
}
