//! Recipients of every kind (RFC 5652, 6.2).

use crate::enveloped::EnvelopedData;
use crate::recipients::RecipientInfo;
use asn1_choices::KnownOrRaw;

/// `RecipientInfo ::= CHOICE { ktri KeyTransRecipientInfo, kari [1] .., kekri [2] .., pwri [3] .., ori [4] .. }` (RFC
/// 5652, 6.2): `kekri` is `Known`, an element with any other tag is `Raw`.
pub type RawRecipientInfo = KnownOrRaw<RecipientInfo>;

/// Enveloped data with recipients of every kind (RFC 5652, 6.1).
pub type RawEnvelopedData = EnvelopedData<RawRecipientInfo>;
