//! Which kinds have rows.

use std::test::Fail;
use x509_containers::{Kind, KindOfInput};

/// What a check says, by its first word.
#[derive(Clone, Copy, Debug, PartialEq, Eq)]
pub enum Said {
    Normal,
    Loose,
    Refused,
}

impl Said {
    /// By the line that a check says.
    pub fn of(line: &str) -> Said {
        if line.starts_with("normal") {
            Said::Normal
        } else if line.starts_with("loose") {
            Said::Loose
        } else {
            Said::Refused
        }
    }
}

/// The words of the kinds whose types have no spelling but the canonical (normal) one.
const STRICT: &str = "\
    attributes certificatebag certificatechoices certificateserialnumber certificateset certpolicy cmsversion \
    contentinfo crlbag ctl ctlentry ctlentryattribute digestalgorithmidentifier digestalgorithmidentifiers \
    encryptedcontentinfo file generalprotectiondescriptor issuerandserialnumber kekidentifier kekrecipientinfo \
    moniker otherkeyattribute otherrevocationinfoformat pbes1params pkcs12attribute policyqualifier \
    protectiondescriptor rawauthenticatedsafecontentinfo rawauthenticatedsafedatarepr recipientinfo \
    rootprogramchainpolicy secretbag signaturealgorithmidentifier signaturevalue signeridentifier spclink \
    spcpeimageflags spcserializedobject spcsipinfo spcspopusinfo spcstring spcuuid url";

/// Asks that there are rows of the kind that are normal, refused, and, where its type has such a spelling, loose.
pub fn has_rows(kind: Kind, rows: &[(Kind, Said)]) -> Result<(), Fail> {
    let is_strict = STRICT.split(' ').any(|word| word == kind.word());
    for said in [Said::Normal, Said::Loose, Said::Refused] {
        let has = rows.contains(&(kind, said));
        if !has && !(said == Said::Loose && is_strict) {
            return Err(Fail::new(format_args!("{kind:?} has no row {said:?}")));
        }
    }
    Ok(())
}
