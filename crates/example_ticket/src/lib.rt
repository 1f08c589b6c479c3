//! Two more types of a caller's own, complete: a SEQUENCE with an optional part under an explicit tag, and a choice by
//! object identifier.
#![tactic(auto)]

ghost use Rattle.std.specs.Prelude.{◌≡◌};
ghost use Rattle.std.proofs.Common.{refl, rules};
ghost use Rattle.asn1_core.specs.Der.{oid_from_test};
ghost use Rattle.example_ticket.specs.Tickets.{token_oid, holder, holder_value, ticket, ticket_value};

use asn1_choices::{Alternative, AnyOid, AnyOidRef, Chosen, Named, WriteChoice};
use asn1_core::prelude::*;
use std::alloc::Global;

/// 1.3.6.1.4.1.32473.1, by its contents octets.
pub const TOKEN: [u8; 9] = [0x2B, 0x06, 0x01, 0x04, 0x01, 0x81, 0xFD, 0x59, 0x01];

/// The object identifier of a token.
#[derive(Drop)]
pub struct Token;

impl Named for Token {
    ghost OID = { token_oid };

    fn octets() -> &'static [u8] {
        &TOKEN
    }

    ghost valid = { oid_from_test token_oid refl };
}

/// `Holder ::= SEQUENCE { type OBJECT IDENTIFIER, value ANY DEFINED BY type }`
#[derive(Debug, Drop, PartialEq, Eq)]
pub enum Holder {
    Token(OctetStringAsn1),
    Unknown {
        type_id: ObjectIdentifier,
        value: Asn1RawDer,
    },
}

type HolderChoice = Either<Alternative<Token, Alone<OctetStringAsn1>>, AnyOid<Alone<Asn1RawDer>>>;

type HolderRef<'a> = Either<
    Alternative<Token, Alone<Ref<&'a OctetStringAsn1>>>,
    AnyOidRef<'a, Alone<Ref<&'a Asn1RawDer>>>,
>;

impl Holder {
    fn choice(&self) -> HolderRef<'_>
        ensures { ⟦<HolderRef<'static> as WriteChoice>⟧.value result ≡ holder_value self.now }
    {
        match self {
            Holder::Token(octets) => Either::First(Alternative::new(Alone(Ref(octets)))),
            Holder::Unknown { type_id, value } => Either::Second(AnyOidRef(
                type_id,
                Alone(Ref(value)),
            )),
        }
    }
}

impl Sequence for Holder {
    ghost asn1 = { holder };

    ghost value = { holder_value };

    fn with_components<U: ComponentVisitor>(&self, visitor: &mut U) -> U::Out {
        visitor.visit(&Chosen(self.choice()))
    }

    fn read_fields(alloc: Global, r: &mut Reader<'_>, nest: u8) -> Result<Self, Error> {
        let Chosen(choice) = Chosen::<HolderChoice>::read_components(alloc, r, nest)?;
        match choice {
            Either::First(alternative) => Ok(Holder::Token(alternative.into_components().0)),
            Either::Second(other) => {
                let AnyOid(type_id, Alone(value)) = other;
                Ok(Holder::Unknown { type_id, value })
            }
        }
    }

    fn clone_fields(&self, alloc: Global) -> Result<Self, Error> {
        match self {
            Holder::Token(octets) => Ok(Holder::Token(octets.try_clone(alloc)?)),
            Holder::Unknown { type_id, value } => {
                let type_id = type_id.try_clone(alloc)?;
                let value = value.try_clone(alloc)?;
                Ok(Holder::Unknown { type_id, value })
            }
        }
    }

    ghost equal = { Prim.search rules };
}

/// `Ticket ::= SEQUENCE { serial INTEGER (0..4294967295), note [0] EXPLICIT OCTET STRING OPTIONAL, holder Holder }`
#[derive(Debug, Drop, PartialEq, Eq)]
pub struct Ticket {
    pub serial: u32,
    pub note: Option<ExplicitContextTag0<OctetStringAsn1>>,
    pub holder: Holder,
}

impl Sequence for Ticket {
    ghost asn1 = { ticket };

    ghost value = { ticket_value };

    fn with_components<U: ComponentVisitor>(&self, visitor: &mut U) -> U::Out {
        with_components_of!(self, visitor; Ticket { serial, note OPTIONAL, holder })
    }

    fn read_fields(alloc: Global, r: &mut Reader<'_>, nest: u8) -> Result<Self, Error> {
        read_fields_of!(alloc, r, nest; Ticket { serial, note OPTIONAL, holder })
    }

    fn clone_fields(&self, alloc: Global) -> Result<Self, Error> {
        clone_fields_of!(self, alloc; Ticket { serial, note OPTIONAL, holder })
    }

    ghost equal = { Prim.search rules };
}
