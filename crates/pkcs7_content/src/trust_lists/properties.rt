//! Properties of certificates, by the numbers that follow 1.3.6.1.4.1.311.10.11.

ghost use Rattle.std.specs.Prelude.{◌≡◌};
ghost use Rattle.pkcs7_content.specs.Properties.{property_of, shape_of};

// The numbers of the properties that are known, of which formats, values and code are made.

pub(crate) const KEY_USAGES: u8 = 9;

pub(crate) const FRIENDLY_NAME: u8 = 11;

pub(crate) const KEY_IDENTIFIER: u8 = 20;

pub(crate) const SUBJECT_NAME_MD5: u8 = 29;

pub(crate) const CERT_POLICIES: u8 = 83;

pub(crate) const ROOT_SHA256: u8 = 98;

pub(crate) const DISALLOWED_TIME: u8 = 104;

pub(crate) const CHAIN_POLICY: u8 = 105;

pub(crate) const DISALLOWED_KEY_USAGES: u8 = 122;

pub(crate) const RESERVED_126: u8 = 126;

pub(crate) const RESERVED_127: u8 = 127;

/// What the values of a property are.
#[derive(Clone, Copy, Debug, PartialEq, Eq)]
pub(crate) enum Shape {
    Octets,
    Usages,
    ChainPolicies,
    CertPolicies,
    Raws,
}

/// The number of the property that an object identifier with these contents octets names; 0 where it names none.
pub(crate) fn property_number(oid: &[u8]) -> u8
    ensures { result ≡ property_of oid.now }
{
    match oid {
        [0x2B, 0x06, 0x01, 0x04, 0x01, 0x82, 0x37, 0x0A, 0x0B, number] => *number,
        _ => 0,
    }
}

impl Shape {
    /// What the values of the property with that number are.
    pub(crate) fn of_property(number: u8) -> Shape
        ensures { result ≡ shape_of number }
    {
        match number {
            ROOT_SHA256
            | DISALLOWED_TIME
            | FRIENDLY_NAME
            | KEY_IDENTIFIER
            | SUBJECT_NAME_MD5
            | RESERVED_126 => Shape::Octets,
            DISALLOWED_KEY_USAGES | KEY_USAGES | RESERVED_127 => Shape::Usages,
            CHAIN_POLICY => Shape::ChainPolicies,
            CERT_POLICIES => Shape::CertPolicies,
            _ => Shape::Raws,
        }
    }
}
