//! What holds an algorithm and what is encrypted by it.

ghost use Rattle.std.specs.Prelude.{◌≡◌};
ghost use Rattle.password_writers.specs.Given.{GivenInfoValue, GivenKeyValue, given_info, given_key};
ghost use Rattle.password_writers.specs.Holders.{contents_value, key_value};

use crate::algorithms::Algorithm;
use asn1_borrowed::{Body, ImplicitTag0OctetsRef, OctetsRef};
use asn1_core::prelude::*;
use asn1_core_oid::known::DATA;
use password_ranges::oids::ENCRYPTED_DATA;

/// `EncryptedPrivateKeyInfo` (RFC 5958, 3)
#[derive(Clone, Copy)]
pub struct EncryptedKey<'a> {
    pub algorithm: Algorithm<'a>,
    /// The octets of `encryptedData`.
    pub encrypted: &'a [u8],
}

impl DerSerialize for EncryptedKey<'_> {
    ghost Value = { GivenKeyValue };

    ghost value = { key_value };

    ghost format = { given_key };

    fn put<W: Writer>(&self, w: &mut W) -> Result<(), WriteError> {
        put_within(
            0x30,
            &Required(self.algorithm, Required(OctetsRef(self.encrypted), End)),
            w,
        )
    }

    fn well_formed_at(&self, limit: u8) -> bool {
        self.algorithm.well_formed_at(limit)
    }
}

/// `ContentInfo` of `encryptedData` (RFC 2315, 13), whose content is of the type `data`.
#[derive(Clone, Copy)]
pub struct EncryptedContents<'a> {
    pub algorithm: Algorithm<'a>,
    /// The octets of `encryptedContent`. `None` where they are elsewhere.
    pub encrypted: Option<&'a [u8]>,
}

type EncryptedContent<'a> = Body<
    Required<KnownOid<'a>, Required<Algorithm<'a>, Maybe<ImplicitTag0OctetsRef<'a>, End>>>,
>;

type Parts<'a> = Required<
    KnownOid<'a>,
    Required<
        ExplicitContextTag0<Body<Required<FixedVersion<0>, Required<EncryptedContent<'a>, End>>>>,
        End,
    >,
>;

impl<'a> EncryptedContents<'a> {
    fn parts(&self) -> Parts<'a>
        ensures { ⟦<Parts<'static> as WriteComponents>⟧.value result ≡ contents_value self.now }
    {
        let encrypted = match self.encrypted {
            Some(octets) => Some(ImplicitTag0OctetsRef(octets)),
            None => None,
        };
        let content = Body(Required(
            KnownOid(&DATA),
            Required(self.algorithm, Maybe(encrypted, End)),
        ));
        let data = Body(Required(FixedVersion::<0>, Required(content, End)));
        Required(
            KnownOid(&ENCRYPTED_DATA),
            Required(ExplicitContextTag0(data), End),
        )
    }
}

impl DerSerialize for EncryptedContents<'_> {
    ghost Value = { GivenInfoValue };

    ghost value = { contents_value };

    ghost format = { given_info };

    fn put<W: Writer>(&self, w: &mut W) -> Result<(), WriteError> {
        put_within(0x30, &self.parts(), w)
    }

    fn well_formed_at(&self, limit: u8) -> bool {
        self.parts().components_well_formed_at(limit)
    }
}
