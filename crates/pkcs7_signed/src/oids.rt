//! The object identifiers that are known, each by its contents octets.

ghost use Rattle.std.proofs.Common.{refl};
ghost use Rattle.asn1_core.specs.Der.{oid_from_test};
ghost use Rattle.pkcs7_signed.specs.Oids.{signed_data_oid};

use asn1_choices::Named;

/// `id-signedData` (RFC 5652, 5.1)
pub(crate) const SIGNED_DATA: [u8; 9] = [0x2A, 0x86, 0x48, 0x86, 0xF7, 0x0D, 0x01, 0x07, 0x02];

/// Names `id-signedData`.
#[derive(Drop)]
pub struct SignedDataType;

impl Named for SignedDataType {
    ghost OID = { signed_data_oid };

    fn octets() -> &'static [u8] {
        &SIGNED_DATA
    }

    ghost valid = { oid_from_test signed_data_oid refl };
}

/// `id-countersignature` (RFC 5652, 11.4)
pub(crate) const COUNTERSIGNATURE: [u8; 9] = [0x2A, 0x86, 0x48, 0x86, 0xF7, 0x0D, 0x01, 0x09, 0x06];

/// `szOID_RFC3161_counterSign` (wincrypt.h)
pub(crate) const MS_COUNTER_SIGN: [u8; 10] = [
    0x2B, 0x06, 0x01, 0x04, 0x01, 0x82, 0x37, 0x03, 0x03, 0x01,
];
