//! The types of Forms, made of `forms.asn1`; not to be edited.

ghost use Rattle.made_forms.specs.Forms.{sender, sender_value, sender_equal};
ghost use Rattle.made_forms.specs.Forms.{state, state_value, state_equal, state_numbers};
ghost use Rattle.made_forms.specs.Forms.{head, head_value, head_equal};
ghost use Rattle.made_forms.specs.Forms.{message, message_value, message_equal};
ghost use Rattle.made_forms.specs.laws.Forms.{state_listed};
ghost use Rattle.std.proofs.Common.{ℕ, refl};
ghost use Rattle.asn1_module_leaves.specs.Enumerations.{numbers_in};

use asn1_core::prelude::*;
use asn1_leaves::Utf8StringAsn1;
use asn1_module_leaves::{Enumerated, Under, enumerated_from_contents};
use std::alloc::Global;

/// `Sender ::= CHOICE { name [0] UTF8String, number [1] INTEGER (0..255) }`
#[derive(Debug, Drop, PartialEq, Eq)]
pub enum Sender {
    Name(Utf8StringAsn1),
    Number(u8),
}

type SenderChoice = Either<Implicit<0, Utf8StringAsn1>, Implicit<1, u8>>;

impl Asn1Type for Sender {
    ghost asn1 = { sender };

    ghost value = { sender_value };

    fn with_encoded<U: ComponentVisitor>(&self, visitor: &mut U) -> U::Out {
        match self {
            Sender::Name(x) => visitor.visit(&Under::<0x80, _>(x)),
            Sender::Number(x) => visitor.visit(&Under::<0x81, _>(x)),
        }
    }

    fn read_encoded(alloc: Global, r: &mut Reader<'_>, nest: u8) -> Result<Self, Error> {
        let choice: SenderChoice = Either::read_one(alloc, r, nest)?;
        match choice {
            Either::First(x) => {
                let Implicit(x) = x;
                Ok(Sender::Name(x))
            }
            Either::Second(x) => {
                let Implicit(x) = x;
                Ok(Sender::Number(x))
            }
        }
    }

    fn is_first_tag(tag: u8) -> bool {
        tag == 0x80 || tag == 0x81
    }

    fn clone_value(&self, alloc: Global) -> Result<Self, Error> {
        match self {
            Sender::Name(x) => Ok(Sender::Name(x.try_clone(alloc)?)),
            Sender::Number(x) => Ok(Sender::Number(x.try_clone(alloc)?)),
        }
    }

    ghost equal = { sender_equal };
}

/// `State ::= ENUMERATED { sent(0), received(1), answered(3) }`
#[derive(Clone, Copy, Debug, PartialEq, Eq)]
pub enum State {
    Sent,
    Received,
    Answered,
}

impl Enumerated for State {
    ghost numbers = { state_numbers };

    ghost number_of = { state_value };

    fn from_number(number: u8) -> Option<Self> {
        match number {
            0 => Some(State::Sent),
            1 => Some(State::Received),
            3 => Some(State::Answered),
            _ => None,
        }
    }

    fn number(&self) -> u8 {
        match self {
            State::Sent => 0,
            State::Received => 1,
            State::Answered => 3,
        }
    }

    ghost low = { refl };

    ghost listed = { state_listed };
}

impl Leaf for State {
    ghost Value = { ℕ };

    ghost value = { state_value };

    ghost spelling = { numbers_in state_numbers };

    fn from_contents(alloc: Global, contents: &[u8]) -> Result<Self, Error> {
        enumerated_from_contents(alloc, contents)
    }
}

impl TaggedType for State {
    ghost asn1 = { state };

    ghost value = { state_value };

    ghost TAG = { 0x0A };

    const TAG: u8 = 0x0A;

    fn put_tagged<W: Writer>(&self, tag: u8, w: &mut W) -> Result<(), WriteError> {
        put_unsigned(tag, u32::from(self.number()), w)
    }

    #[tactic(auto, using(crate::specs::laws::Forms::state_listed))]
    fn is_well_formed_at(&self, _limit: u8) -> bool {
        true
    }

    fn read_open_contents(alloc: Global, r: &mut Reader<'_>, nest: u8) -> Result<Self, Error> {
        read_leaf_contents(alloc, r, nest, 0x0A)
    }

    fn clone_value(&self, _alloc: Global) -> Result<Self, Error> {
        Ok(*self)
    }

    ghost tagged = { state.tagged };

    ghost equal = { state_equal };
}

/// `Head ::= SEQUENCE { sender Sender, state State }`
#[derive(Debug, Drop, PartialEq, Eq)]
pub struct Head {
    pub sender: Sender,
    pub state: State,
}

impl Sequence for Head {
    ghost asn1 = { head };

    ghost value = { head_value };

    fn with_components<U: ComponentVisitor>(&self, visitor: &mut U) -> U::Out {
        with_components_of!(self, visitor; Head { sender, state })
    }

    fn read_fields(alloc: Global, r: &mut Reader<'_>, nest: u8) -> Result<Self, Error> {
        read_fields_of!(alloc, r, nest; Head { sender, state })
    }

    fn clone_fields(&self, alloc: Global) -> Result<Self, Error> {
        clone_fields_of!(self, alloc; Head { sender, state })
    }

    ghost equal = { head_equal };
}

/// `Message ::= SEQUENCE { head Head, text UTF8String OPTIONAL }`
#[derive(Debug, Drop, PartialEq, Eq)]
pub struct Message {
    pub head: Head,
    pub text: Option<Utf8StringAsn1>,
}

impl Sequence for Message {
    ghost asn1 = { message };

    ghost value = { message_value };

    fn with_components<U: ComponentVisitor>(&self, visitor: &mut U) -> U::Out {
        with_components_of!(self, visitor; Message { head, text OPTIONAL })
    }

    fn read_fields(alloc: Global, r: &mut Reader<'_>, nest: u8) -> Result<Self, Error> {
        read_fields_of!(alloc, r, nest; Message { head, text OPTIONAL })
    }

    fn clone_fields(&self, alloc: Global) -> Result<Self, Error> {
        clone_fields_of!(self, alloc; Message { head, text OPTIONAL })
    }

    ghost equal = { message_equal };
}
