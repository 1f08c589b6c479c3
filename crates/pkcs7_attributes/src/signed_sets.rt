//! What a signature covers where there are signed attributes (RFC 5652, 5.4).

ghost use Rattle.std.specs.Prelude.{◌≡◌, ◌↔◌, IsTrue, List, []};
ghost use Rattle.asn1_core.specs.Der.{option_value};
ghost use Rattle.x509_base.specs.Names.{attribute};
ghost use Rattle.pkcs7_attributes.specs.Attributes.{attributes, attributes_value};
ghost use Rattle.pkcs7_attributes.specs.SignedSets.{attributes_as_set, some_attributes, IsRetagged};

use crate::attributes::Attributes;
use asn1_core::prelude::*;
use x509_base::Attribute;

/// Signed attributes that are written under the tag of a SET OF, in place of their own `[0]`. A signature covers these
/// octets, which are nowhere in a file. The attributes keep their order, which RFC 5652 has be that of DER. This only
/// writes: `to_vec` makes a vector of the octets, `write_to` sends them to a sink.
#[derive(Drop)]
pub struct AttributesAsSet<'a>(pub &'a Attributes);

impl Attributes {
    /// The attributes as a signature covers them. `None` where there are none: the signature is then over the content.
    #[tactic(auto, using(crate::specs::laws::SignedSets::no_attributes_there, crate::specs::laws::SignedSets::attributes_there))]
    pub fn as_set(&self) -> Option<AttributesAsSet<'_>>
        ensures { option_value (λ set. attributes_value set.0.now) result ≡ some_attributes (attributes_value self.now) }
    {
        if is_none(&self.0.0) {
            None
        } else {
            Some(AttributesAsSet(self))
        }
    }
}

/// Whether there are no attributes.
fn is_none(attributes: &Vec<Attribute>) -> bool
    ensures { IsTrue result ↔ (attributes.now.items ≡ []) }
{
    attributes.is_empty()
}

impl DerSerialize for AttributesAsSet<'_> {
    ghost Value = { List attribute.Value };

    ghost value = { λ set. attributes_value set.0.now };

    ghost format = { attributes_as_set };

    fn put<W: Writer>(&self, w: &mut W) -> Result<(), WriteError> {
        put_within(0x31, &self.0.0.0, w)
    }

    fn well_formed_at(&self, limit: u8) -> bool {
        self.0.0.0.components_well_formed_at(limit)
    }
}

/// The octets that a signature covers have the contents of the attributes in the file.
pub fn set_has_the_same_contents()
    ensures { (vs : List attribute.Value) → IsRetagged (attributes.format.text vs) (attributes_as_set.text vs) }
{}
