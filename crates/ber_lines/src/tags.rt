//! Tags in the words of ASN.1 (ITU-T X.680, table 1).

ghost use Rattle.std.specs.Prelude.{◌≡◌, ◌↔◌, ◌/◌, ◌%◌, IsTrue};
ghost use Rattle.asn1_core_element.specs.Element.{IsTagByte};

use std::fmt;

/// The type whose number this is in the universal class.
fn type_word(number: u8) -> Option<&'static str> {
    Some(match number {
        1 => "BOOLEAN",
        2 => "INTEGER",
        3 => "BIT STRING",
        4 => "OCTET STRING",
        5 => "NULL",
        6 => "OBJECT IDENTIFIER",
        7 => "ObjectDescriptor",
        8 => "EXTERNAL",
        9 => "REAL",
        10 => "ENUMERATED",
        11 => "EMBEDDED PDV",
        12 => "UTF8String",
        13 => "RELATIVE-OID",
        14 => "TIME",
        16 => "SEQUENCE",
        17 => "SET",
        18 => "NumericString",
        19 => "PrintableString",
        20 => "TeletexString",
        21 => "VideotexString",
        22 => "IA5String",
        23 => "UTCTime",
        24 => "GeneralizedTime",
        25 => "GraphicString",
        26 => "VisibleString",
        27 => "GeneralString",
        28 => "UniversalString",
        29 => "CHARACTER STRING",
        30 => "BMPString",
        _ => return None,
    })
}

/// A tag of one byte: class, form and number (X.690, 8.1.2).
#[derive(Clone, Copy)]
pub struct Tag(pub u8);

impl Tag {
    /// Whether no more octets of the tag follow (X.690, 8.1.2.4).
    pub fn is_one_octet(self) -> bool
        ensures { IsTrue result ↔ IsTagByte self.0 }
    {
        self.0 % 32 < 31
    }

    pub fn is_constructed(self) -> bool
        ensures { IsTrue result ↔ (self.0 / 32 % 2 ≡ 1) }
    {
        self.0 / 32 % 2 == 1
    }

    /// Whether DER gives values of the type the constructed form, which no tag of another class says.
    fn is_made_of_elements(self) -> bool {
        self.0 < 64 && matches!(self.0 % 32, 8 | 11 | 16 | 17 | 29)
    }
}

impl fmt::Display for Tag {
    /// The type or the class and the number, and the form where these don't say it.
    fn fmt<W: fmt::Write>(&self, f: &mut fmt::Formatter<W>) -> fmt::Result {
        let number = self.0 % 32;
        match (self.0 / 64, type_word(number)) {
            (0, Some(word)) => write!(f, "{word}")?,
            (0, None) => write!(f, "[UNIVERSAL {number}]")?,
            (1, _) => write!(f, "[APPLICATION {number}]")?,
            (2, _) => write!(f, "[{number}]")?,
            _ => write!(f, "[PRIVATE {number}]")?,
        }
        match (self.is_constructed(), self.is_made_of_elements()) {
            (true, false) => f.write_str(" constructed"),
            (false, true) => f.write_str(" primitive"),
            _ => Ok(()),
        }
    }
}
