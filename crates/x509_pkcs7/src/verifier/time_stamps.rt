//! What a time stamp signs (RFC 3161, 2.4.2): the content of signed data whose content type is `id-ct-TSTInfo`, in its
//! octets.

ghost use Rattle.asn1_core.specs.Der.{any_octets, Octets};
ghost use Rattle.x509_pkcs7.specs.TimeStamps.{gen_time, gen_time_equal, accuracy, accuracy_value, accuracy_equal, tst_info, tst_info_value, tst_info_equal};

use asn1_core::prelude::*;
use asn1_leaves::IntegerAsn1;
use std::alloc::Global;
use x509_base::{DefaultFalse, DigestInfo, Extension};

/// GeneralizedTime, by its contents octets, of whatever spelling: a time stamp may have a fraction of a second, as
/// `20260102030405.25Z`.
#[derive(Debug, Drop, PartialEq, Eq)]
pub struct GenTime(pub Vec<u8>);

impl Leaf for GenTime {
    ghost Value = { Octets };

    ghost value = { λ x. x.0.items };

    ghost spelling = { any_octets };

    fn from_contents(alloc: Global, contents: &[u8]) -> Result<Self, Error> {
        Ok(GenTime(Vec::from_slice(alloc, contents)?))
    }
}

impl TaggedType for GenTime {
    ghost asn1 = { gen_time };

    ghost value = { λ x. x.0.items };

    ghost TAG = { 0x18 };

    const TAG: u8 = 0x18;

    fn put_tagged<W: Writer>(&self, tag: u8, w: &mut W) -> Result<(), WriteError> {
        put_element(tag, self.0.as_slice(), w)
    }

    fn is_well_formed_at(&self, _limit: u8) -> bool {
        true
    }

    fn read_open_contents(alloc: Global, r: &mut Reader<'_>, nest: u8) -> Result<Self, Error> {
        read_leaf_contents(alloc, r, nest, 0x18)
    }

    fn clone_value(&self, alloc: Global) -> Result<Self, Error> {
        Ok(GenTime(Vec::from_slice(alloc, self.0.as_slice())?))
    }

    ghost tagged = { gen_time.tagged };

    ghost equal = { gen_time_equal };
}

/// `Accuracy ::= SEQUENCE { seconds INTEGER OPTIONAL, millis [0] INTEGER OPTIONAL, micros [1] INTEGER OPTIONAL }`, each
/// element as it is.
#[derive(Debug, Drop, PartialEq, Eq)]
pub struct Accuracy(pub Vec<Asn1RawDer>);

impl Sequence for Accuracy {
    ghost asn1 = { accuracy };

    ghost value = { accuracy_value };

    fn with_components<U: ComponentVisitor>(&self, visitor: &mut U) -> U::Out {
        visitor.visit(&self.0)
    }

    fn read_fields(alloc: Global, r: &mut Reader<'_>, nest: u8) -> Result<Self, Error> {
        Ok(Accuracy(ReadComponents::read_components(alloc, r, nest)?))
    }

    fn clone_fields(&self, alloc: Global) -> Result<Self, Error> {
        Ok(Accuracy(self.0.try_clone(alloc)?))
    }

    ghost equal = { accuracy_equal };
}

/// `[0] GeneralName`, the name as it is.
pub type TimeStampAuthority = Explicit<0, Asn1RawDer>;

/// `[1] IMPLICIT Extensions`
pub type TimeStampExtensions = Implicit<1, Asn1SequenceOf<Extension>>;

/// `TSTInfo ::= SEQUENCE { version INTEGER { v1(1) }, policy TSAPolicyId, messageImprint MessageImprint, serialNumber
/// INTEGER, genTime GeneralizedTime, accuracy Accuracy OPTIONAL, ordering BOOLEAN DEFAULT FALSE, nonce INTEGER OPTIONAL,
/// tsa [0] GeneralName OPTIONAL, extensions [1] IMPLICIT Extensions OPTIONAL }`. Another version is refused.
#[derive(Debug, Drop, PartialEq, Eq)]
pub struct TstInfo {
    pub policy: ObjectIdentifierAsn1,
    /// `MessageImprint ::= SEQUENCE { hashAlgorithm AlgorithmIdentifier, hashedMessage OCTET STRING }`
    pub message_imprint: DigestInfo,
    pub serial_number: IntegerAsn1,
    pub gen_time: GenTime,
    pub accuracy: Option<Accuracy>,
    pub ordering: bool,
    pub nonce: Option<IntegerAsn1>,
    pub tsa: Option<TimeStampAuthority>,
    pub extensions: Option<TimeStampExtensions>,
}

// The version is no field.

macro_rules! put_after_version {
    ($value:ident, $visitor:ident; $type:ident { $($parts:tt)* }) => {
        $visitor.visit(&Required(FixedVersion::<1>, body_of!($value; $($parts)*)))
    };
}

macro_rules! read_after_version {
    ($alloc:ident, $r:ident, $nest:ident; $type:ident { $($parts:tt)* }) => {{
        let components: Required<FixedVersion<1>, types_of!($($parts)*)> =
            ReadComponents::read_components($alloc, $r, $nest)?;
        let Required(_, fields_of!($($parts)*)) = components;
        Ok(struct_of!($type; ; $($parts)*))
    }};
}

macro_rules! tst_info {
    ($by:ident($($with:ident),*)) => {
        $by!($($with),*; TstInfo {
            policy, message_imprint, serial_number, gen_time, accuracy OPTIONAL,
            DefaultFalse(ordering) DEFAULT, nonce OPTIONAL, tsa OPTIONAL, extensions OPTIONAL
        })
    };
}

impl Sequence for TstInfo {
    ghost asn1 = { tst_info };

    ghost value = { tst_info_value };

    fn with_components<U: ComponentVisitor>(&self, visitor: &mut U) -> U::Out {
        tst_info!(put_after_version(self, visitor))
    }

    fn read_fields(alloc: Global, r: &mut Reader<'_>, nest: u8) -> Result<Self, Error> {
        tst_info!(read_after_version(alloc, r, nest))
    }

    fn clone_fields(&self, alloc: Global) -> Result<Self, Error> {
        tst_info!(clone_fields_of(self, alloc))
    }

    ghost equal = { tst_info_equal };
}
