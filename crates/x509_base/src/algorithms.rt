//! Algorithm identifiers (RFC 5280, 4.1.1.2).

ghost use Rattle.std.specs.Prelude.{◌≡◌, Some};
ghost use Rattle.std.proofs.Common.{rules, arith};
ghost use Rattle.asn1_core.specs.Der.{option_value};
ghost use Rattle.x509_base.specs.Algorithms.{algorithm_identifier, null};
ghost use Rattle.x509_base.specs.AlgorithmParts.{algorithm_of, parameters_of, parts_of, algorithm_identifier_value, raw_algorithm_identifier_value, algorithm_identifier_equal};
ghost use Rattle.x509_base.specs.OtherAlgorithms.{other_algorithm, raw_algorithm_identifier};

use asn1_choices::{AnyOid, Chosen, ReadChoice, WriteChoice};
use asn1_core::OidRef;
use asn1_core::prelude::*;
use std::alloc::Global;

type AlgorithmComponents = Required<ObjectIdentifierAsn1, Maybe<Asn1RawDer, End>>;

/// `AlgorithmIdentifier ::= SEQUENCE { algorithm OBJECT IDENTIFIER, parameters ANY DEFINED BY algorithm OPTIONAL }`,
/// written as it is: absent parameters stay absent.
#[derive(Debug, Drop, PartialEq, Eq)]
pub struct AlgorithmIdentifier {
    algorithm: ObjectIdentifier,
    parameters: Option<Asn1RawDer>,
}

impl AlgorithmIdentifier {
    pub fn from_parts(algorithm: ObjectIdentifier, parameters: Option<Asn1RawDer>) -> Self
        ensures algorithm { algorithm_of result ≡ algorithm }
        ensures parameters { parameters_of result ≡ parameters }
    {
        Self {
            algorithm,
            parameters,
        }
    }

    pub fn algorithm(&self) -> &ObjectIdentifier
        ensures { result.now ≡ algorithm_of self.now }
    {
        &self.algorithm
    }

    pub fn parameters(&self) -> Option<&Asn1RawDer>
        ensures { option_value (λ p. p.now) result ≡ parameters_of self.now }
    {
        self.parameters.as_ref()
    }
}

impl Sequence for AlgorithmIdentifier {
    ghost asn1 = { algorithm_identifier };

    ghost value = { algorithm_identifier_value };

    fn with_components<U: ComponentVisitor>(&self, visitor: &mut U) -> U::Out {
        visitor.visit(&Required(OidRef(&self.algorithm), MaybeRef(&self.parameters, End)))
    }

    fn read_fields(alloc: Global, r: &mut Reader<'_>, nest: u8) -> Result<Self, Error> {
        let components: AlgorithmComponents = ReadComponents::read_components(alloc, r, nest)?;
        let Required(ObjectIdentifierAsn1(algorithm), Maybe(parameters, End)) = components;
        Ok(Self {
            algorithm,
            parameters,
        })
    }

    #[inline(always)]
    fn clone_fields(&self, alloc: Global) -> Result<Self, Error> {
        clone_of!(self, alloc; Self { algorithm, parameters })
    }

    ghost equal = { algorithm_identifier_equal };
}

/// An algorithm identifier whose absent parameters are read as absent, and written as NULL.
#[derive(Debug, Drop, PartialEq, Eq)]
pub struct RawAlgorithmIdentifier {
    parts: AlgorithmIdentifier,
}

impl RawAlgorithmIdentifier {
    pub fn from_parts(algorithm: ObjectIdentifier, parameters: Option<Asn1RawDer>) -> Self
        ensures algorithm { algorithm_of (parts_of result) ≡ algorithm }
        ensures parameters { parameters_of (parts_of result) ≡ parameters }
    {
        let parts = AlgorithmIdentifier::from_parts(algorithm, parameters);
        Self { parts }
    }

    pub fn algorithm(&self) -> &ObjectIdentifier
        ensures { result.now ≡ algorithm_of (parts_of self.now) }
    {
        &self.parts.algorithm
    }

    pub fn parameters(&self) -> Option<&Asn1RawDer>
        ensures { option_value (λ p. p.now) result ≡ parameters_of (parts_of self.now) }
    {
        self.parts.parameters.as_ref()
    }
}

impl Sequence for RawAlgorithmIdentifier {
    ghost asn1 = { raw_algorithm_identifier };

    ghost value = { raw_algorithm_identifier_value };

    fn with_components<U: ComponentVisitor>(&self, visitor: &mut U) -> U::Out {
        visitor.visit(&Chosen(self))
    }

    fn read_fields(alloc: Global, r: &mut Reader<'_>, nest: u8) -> Result<Self, Error> {
        let Chosen(algorithm) = ReadComponents::read_components(alloc, r, nest)?;
        Ok(algorithm)
    }

    #[inline(always)]
    fn clone_fields(&self, alloc: Global) -> Result<Self, Error> {
        clone_of!(self, alloc; RawAlgorithmIdentifier { parts })
    }

    ghost equal = { Prim.search rules };
}

/// The last alternative of a choice of algorithms: any object identifier that no earlier one has.
impl WriteChoice for RawAlgorithmIdentifier {
    ghost Value = { algorithm_identifier.Value };

    ghost value = { raw_algorithm_identifier_value };

    ghost choice = { other_algorithm.choice };

    fn oid(&self) -> &[u8] {
        self.algorithm().octets()
    }

    fn put_choice<W: Writer>(&self, w: &mut W) -> Result<(), WriteError> {
        let oid = OidRef(self.algorithm());
        match self.parameters() {
            Some(parameters) => Required(oid, Alone(Ref(parameters))).put_components(w),
            None => Required(oid, Alone(Null)).put_components(w),
        }
    }

    fn choice_well_formed_at(&self, limit: u8) -> bool {
        self.parts.well_formed_at(limit)
    }
}

impl ReadChoice for RawAlgorithmIdentifier {
    fn read_after(oid: &[u8], alloc: Global, r: &mut Reader<'_>, nest: u8) -> Result<Self, Error> {
        let AnyOid(algorithm, Maybe(parameters, End)) = AnyOid::<
            Maybe<Asn1RawDer, End>,
        >::read_after(oid, alloc, r, nest)?;
        Ok(Self::from_parts(algorithm, parameters))
    }

    ghost lawful = { λ _. other_algorithm.law };
}

/// Writes the contents of an algorithm identifier with these contents octets of its object identifier, and with NULL as
/// parameters.
pub fn put_algorithm<W: Writer>(octets: &[u8], w: &mut W) -> Result<(), WriteError>
    requires { W.MayTake w.old }
    ensures { W.Takes (algorithm_identifier.format.text (octets.now, (Some null, tt))) w.old w.new result }
{
    Required(KnownOid(octets), Alone(Null)).put_components(w)
}
