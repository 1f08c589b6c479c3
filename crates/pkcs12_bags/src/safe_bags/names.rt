//! What a bag is called, and what ties a key to its certificate.

ghost use Rattle.std.specs.Prelude.{◌≡◌, MatchOption, Some, None, map};
ghost use Rattle.asn1_leaves_strings.specs.Octets.{octets_of_bmp};
ghost use Rattle.pkcs12_bags.specs.Attributes.{pkcs12_attribute_value, attributes_value};
ghost use Rattle.pkcs12_bags.specs.FirstAttributes.{first_name, first_key_id, friendly_name_of, local_key_id_of};

use crate::parts::Pkcs12Attribute;
use crate::safe_bags::bags::SafeBag;
use asn1_leaves_strings::BmpString;

impl SafeBag {
    /// The first `friendlyName` among its attributes (RFC 2985, 5.5.1), which is all that a file has of them as a rule.
    pub fn friendly_name(&self) -> Option<&BmpString>
        ensures { MatchOption result (friendly_name_of (attributes_value self.now.attributes) ≡ None)
            (λ name. friendly_name_of (attributes_value self.now.attributes) ≡ Some (octets_of_bmp name.now)) }
    {
        match &self.attributes {
            Some(attributes) => name_among(attributes),
            None => None,
        }
    }

    /// The octets of the first `localKeyId` among its attributes (RFC 2985, 5.5.2): a key and its certificate have the
    /// same.
    pub fn local_key_id(&self) -> Option<&[u8]>
        ensures { MatchOption result (local_key_id_of (attributes_value self.now.attributes) ≡ None)
            (λ id. local_key_id_of (attributes_value self.now.attributes) ≡ Some id.now) }
    {
        match &self.attributes {
            Some(attributes) => key_id_among(attributes),
            None => None,
        }
    }
}

fn name_among(attributes: &Vec<Pkcs12Attribute>) -> Option<&BmpString>
    ensures { MatchOption result (first_name (map pkcs12_attribute_value attributes.now.items) ≡ None)
        (λ name. first_name (map pkcs12_attribute_value attributes.now.items) ≡ Some (octets_of_bmp name.now)) }
{
    for attribute in attributes {
        if let Pkcs12Attribute::FriendlyName(name) = attribute {
            return Some(name);
        }
    }
    None
}

fn key_id_among(attributes: &Vec<Pkcs12Attribute>) -> Option<&[u8]>
    ensures { MatchOption result (first_key_id (map pkcs12_attribute_value attributes.now.items) ≡ None)
        (λ id. first_key_id (map pkcs12_attribute_value attributes.now.items) ≡ Some id.now) }
{
    for attribute in attributes {
        if let Pkcs12Attribute::LocalKeyId(id) = attribute {
            return Some(id.0.as_slice());
        }
    }
    None
}
