//! The certificates and the signers of signed data.

ghost use Rattle.std.specs.Prelude.{◌≡◌};
ghost use Rattle.pkcs7_signed.specs.declared.signers.SignedData.{out-SignedData};
ghost use Rattle.pkcs7_signed.specs.declared.signers.SignersInfos.{out-SignersInfos};

use pkcs7_signed::{CertificateChoices, SignedData, SignerInfo};

/// The certificates of signed data, in their order; none where they are absent.
pub fn certificates(signed: &SignedData) -> &[CertificateChoices]
    ensures { result.now ≡ (out-SignedData signed.now).certificates.0.0.items }
{
    &signed.certificates.0.0
}

/// The signers of signed data, in their order.
pub fn signers(signed: &SignedData) -> &[SignerInfo]
    ensures { result.now ≡ (out-SignersInfos (out-SignedData signed.now).signers_infos).0.0.items }
{
    &signed.signers_infos.0.0
}
