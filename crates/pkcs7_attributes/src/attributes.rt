//! The attributes that a signer signs (RFC 5652, 5.3).

ghost use Rattle.std.specs.Prelude.{◌≡◌, []};
ghost use Rattle.pkcs7_attributes.specs.Attributes.{attributes, attributes_value, attributes_equal, no_attributes};
ghost use Rattle.pkcs7_attributes.specs.laws.Attributes.{no_attributes_left_out};

use asn1_core::prelude::*;
use std::alloc::Global;
use x509_base::Attribute;

/// `SignedAttributes ::= SET OF Attribute`, under its tag `[0] IMPLICIT`. The list is a `SEQUENCE OF` by name alone, as
/// in the Rust crate.
#[derive(Debug, Drop, PartialEq)]
pub struct Attributes(pub Asn1SequenceOf<Attribute>);

impl Attributes {
    /// The empty set. Takes no memory.
    pub fn empty(alloc: Global) -> Self
        ensures { result.0.0.items ≡ [] }
    {
        Attributes(Asn1SequenceOf(Vec::new(alloc)))
    }
}

impl Asn1Type for Attributes {
    ghost asn1 = { attributes };

    ghost value = { attributes_value };

    fn with_encoded<U: ComponentVisitor>(&self, visitor: &mut U) -> U::Out {
        visitor.visit_within::<0xA0, _>(&self.0.0)
    }

    fn read_encoded(alloc: Global, r: &mut Reader<'_>, nest: u8) -> Result<Self, Error> {
        Ok(Attributes(Asn1SequenceOf(read_within(alloc, r, nest, 0xA0)?)))
    }

    fn is_first_tag(tag: u8) -> bool {
        tag == 0xA0
    }

    fn clone_value(&self, alloc: Global) -> Result<Self, Error> {
        Ok(Attributes(self.0.try_clone(alloc)?))
    }

    ghost equal = { attributes_equal };
}

impl DefaultType for Attributes {
    ghost ABSENT = { no_attributes };

    fn is_absent(&self) -> bool {
        is_left_out(0xA0, &self.0.0)
    }

    fn when_absent(alloc: Global) -> Result<Self, Error> {
        Ok(Attributes::empty(alloc))
    }

    ghost absent_law = { no_attributes_left_out };
}
