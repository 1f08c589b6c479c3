//! Bags as they are given, and with their attributes put together.

ghost use Rattle.std.specs.Prelude.{◌≡◌};
ghost use Rattle.bag_writers.specs.Given.{GivenBagValue, given_bag};
ghost use Rattle.bag_writers.specs.Values.{attributed_value};

use crate::held::Held;
use asn1_core::prelude::*;
use x509_base::Attribute;

/// A bag to be written (RFC 7292, 4.2).
#[derive(Clone, Copy)]
pub struct Bag<'a> {
    pub held: Held<'a>,
    /// The name that is shown to a user (RFC 2985, 5.5.1): UTF-16, two octets for each unit, the high one first.
    pub friendly_name: Option<&'a [u8]>,
    /// What ties a key to its certificate (RFC 2985, 5.5.2): the contents octets of the OCTET STRING.
    pub local_key_id: Option<&'a [u8]>,
    /// Further attributes, in any order. Of them, friendly names and local key identifiers aren't written, whatever they
    /// hold.
    pub attributes: &'a [Attribute],
}

/// A bag whose attributes are encoded.
#[derive(Drop)]
pub(crate) struct Attributed<'a> {
    pub(crate) held: Held<'a>,
    pub(crate) attributes: Option<Asn1SetOf<Asn1RawDer>>,
}

/// The parts of a bag.
type Parts<'a> = Required<
    KnownOid<'a>,
    Required<ExplicitContextTag0<Held<'a>>, MaybeRef<'a, Asn1SetOf<Asn1RawDer>, End>>,
>;

impl Attributed<'_> {
    fn parts(&self) -> Parts<'_>
        ensures { ⟦<Parts<'static> as WriteComponents>⟧.value result ≡ attributed_value self.now }
    {
        Required(
            KnownOid(self.held.id()),
            Required(
                ExplicitContextTag0(self.held),
                MaybeRef(&self.attributes, End),
            ),
        )
    }
}

impl DerSerialize for Attributed<'_> {
    ghost Value = { GivenBagValue };

    ghost value = { attributed_value };

    ghost format = { given_bag };

    fn put<W: Writer>(&self, w: &mut W) -> Result<(), WriteError> {
        put_within(0x30, &self.parts(), w)
    }

    fn well_formed_at(&self, limit: u8) -> bool {
        self.parts().components_well_formed_at(limit)
    }
}
