//! Algorithms that encrypt with a password and have a salt and a count as their parameters, by their object identifiers.

ghost use Rattle.password_ranges.specs.SaltKinds.{pbes1_table, pkcs12_table};
ghost use Rattle.password_ranges.specs.laws.SaltKinds.{pbes1_is_table, pkcs12_is_table};

use asn1_choices::OidTable;

const MD2_AND_DES: &[u8] = &[0x2A, 0x86, 0x48, 0x86, 0xF7, 0x0D, 0x01, 0x05, 0x01];

const MD5_AND_DES: &[u8] = &[0x2A, 0x86, 0x48, 0x86, 0xF7, 0x0D, 0x01, 0x05, 0x03];

const MD2_AND_RC2: &[u8] = &[0x2A, 0x86, 0x48, 0x86, 0xF7, 0x0D, 0x01, 0x05, 0x04];

const MD5_AND_RC2: &[u8] = &[0x2A, 0x86, 0x48, 0x86, 0xF7, 0x0D, 0x01, 0x05, 0x06];

const SHA1_AND_DES: &[u8] = &[0x2A, 0x86, 0x48, 0x86, 0xF7, 0x0D, 0x01, 0x05, 0x0A];

const SHA1_AND_RC2: &[u8] = &[0x2A, 0x86, 0x48, 0x86, 0xF7, 0x0D, 0x01, 0x05, 0x0B];

/// Those of PBES1 (RFC 8018, appendix A.3).
#[derive(Clone, Copy, Debug, PartialEq, Eq)]
pub enum Pbes1Kind {
    /// `pbeWithMD2AndDES-CBC`
    Md2AndDes,
    /// `pbeWithMD5AndDES-CBC`
    Md5AndDes,
    /// `pbeWithMD2AndRC2-CBC`
    Md2AndRc2,
    /// `pbeWithMD5AndRC2-CBC`
    Md5AndRc2,
    /// `pbeWithSHA1AndDES-CBC`
    Sha1AndDes,
    /// `pbeWithSHA1AndRC2-CBC`
    Sha1AndRc2,
}

impl OidTable for Pbes1Kind {
    ghost table = { pbes1_table };

    fn octets(self) -> &'static [u8] {
        match self {
            Self::Md2AndDes => MD2_AND_DES,
            Self::Md5AndDes => MD5_AND_DES,
            Self::Md2AndRc2 => MD2_AND_RC2,
            Self::Md5AndRc2 => MD5_AND_RC2,
            Self::Sha1AndDes => SHA1_AND_DES,
            Self::Sha1AndRc2 => SHA1_AND_RC2,
        }
    }

    fn with_octets(octets: &[u8]) -> Option<Self> {
        match octets {
            MD2_AND_DES => Some(Self::Md2AndDes),
            MD5_AND_DES => Some(Self::Md5AndDes),
            MD2_AND_RC2 => Some(Self::Md2AndRc2),
            MD5_AND_RC2 => Some(Self::Md5AndRc2),
            SHA1_AND_DES => Some(Self::Sha1AndDes),
            SHA1_AND_RC2 => Some(Self::Sha1AndRc2),
            _ => None,
        }
    }

    ghost is_table = { pbes1_is_table };
}

const SHA_AND_128_BIT_RC4: &[u8] = &[0x2A, 0x86, 0x48, 0x86, 0xF7, 0x0D, 0x01, 0x0C, 0x01, 0x01];

const SHA_AND_40_BIT_RC4: &[u8] = &[0x2A, 0x86, 0x48, 0x86, 0xF7, 0x0D, 0x01, 0x0C, 0x01, 0x02];

const SHA_AND_3_KEY_3_DES: &[u8] = &[0x2A, 0x86, 0x48, 0x86, 0xF7, 0x0D, 0x01, 0x0C, 0x01, 0x03];

const SHA_AND_2_KEY_3_DES: &[u8] = &[0x2A, 0x86, 0x48, 0x86, 0xF7, 0x0D, 0x01, 0x0C, 0x01, 0x04];

const SHA_AND_128_BIT_RC2: &[u8] = &[0x2A, 0x86, 0x48, 0x86, 0xF7, 0x0D, 0x01, 0x0C, 0x01, 0x05];

const SHA_AND_40_BIT_RC2: &[u8] = &[0x2A, 0x86, 0x48, 0x86, 0xF7, 0x0D, 0x01, 0x0C, 0x01, 0x06];

/// `pkcs-12PbeIds` (RFC 7292, appendix C).
#[derive(Clone, Copy, Debug, PartialEq, Eq)]
pub enum Pkcs12Kind {
    /// `pbeWithSHAAnd128BitRC4`
    ShaAnd128BitRc4,
    /// `pbeWithSHAAnd40BitRC4`
    ShaAnd40BitRc4,
    /// `pbeWithSHAAnd3-KeyTripleDES-CBC`
    ShaAnd3Key3Des,
    /// `pbeWithSHAAnd2-KeyTripleDES-CBC`
    ShaAnd2Key3Des,
    /// `pbeWithSHAAnd128BitRC2-CBC`
    ShaAnd128BitRc2,
    /// `pbewithSHAAnd40BitRC2-CBC`
    ShaAnd40BitRc2,
}

impl OidTable for Pkcs12Kind {
    ghost table = { pkcs12_table };

    fn octets(self) -> &'static [u8] {
        match self {
            Self::ShaAnd128BitRc4 => SHA_AND_128_BIT_RC4,
            Self::ShaAnd40BitRc4 => SHA_AND_40_BIT_RC4,
            Self::ShaAnd3Key3Des => SHA_AND_3_KEY_3_DES,
            Self::ShaAnd2Key3Des => SHA_AND_2_KEY_3_DES,
            Self::ShaAnd128BitRc2 => SHA_AND_128_BIT_RC2,
            Self::ShaAnd40BitRc2 => SHA_AND_40_BIT_RC2,
        }
    }

    fn with_octets(octets: &[u8]) -> Option<Self> {
        match octets {
            SHA_AND_128_BIT_RC4 => Some(Self::ShaAnd128BitRc4),
            SHA_AND_40_BIT_RC4 => Some(Self::ShaAnd40BitRc4),
            SHA_AND_3_KEY_3_DES => Some(Self::ShaAnd3Key3Des),
            SHA_AND_2_KEY_3_DES => Some(Self::ShaAnd2Key3Des),
            SHA_AND_128_BIT_RC2 => Some(Self::ShaAnd128BitRc2),
            SHA_AND_40_BIT_RC2 => Some(Self::ShaAnd40BitRc2),
            _ => None,
        }
    }

    ghost is_table = { pkcs12_is_table };
}
