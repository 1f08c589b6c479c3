//! The ranges of bags, and of those in bags.

ghost use Rattle.std.specs.Prelude.{MatchResult, map};
ghost use Rattle.asn1_core.specs.Der.{each, octets_of};
ghost use Rattle.bag_ranges.specs.BagRoutes.{BAG, SAFE};
ghost use Rattle.bag_ranges.specs.Bags.{AreBags, AreInBag, AreOfBag, InOrder, IsBagAt, IsIn, IsKeyIdAt, IsKind, IsNameAt};
ghost use Rattle.bag_ranges.specs.Contained.{IsEither, IsHeld, LeadsIn, named_kind, value_steps};
ghost use Rattle.bag_ranges.specs.Failures.{Adds, Finds, HasNoKeyId, HasNoName, HasNone, HasNoRow, HasNoRows, Pushes};
ghost use Rattle.bag_ranges.specs.Pieces.{IsElementIn, IsOnlyAt};
ghost use Rattle.bag_ranges.specs.declared.ranges.BagKind.TheVariants.{Certificate, Crl, ShroudedKey};
ghost use Rattle.pkcs12_bags.specs.declared.parts.oids.TheConstants.{X509_CERTIFICATE, X509_CRL};
ghost use Rattle.x509_base.specs.Names.{attribute_value};
ghost use Rattle.x509_pkcs12.specs.RawBags.{raw_safe_bag_value};

use crate::parts::{read_at, refused};
use crate::places::{
    attribute, attribute_octets, bags_in, element_of_bag, first_element, other_element, x509_octets,
};
use crate::ranges::{BagKind, BagRanges};
use asn1_core::{Error, ObjectIdentifierAsn1};
use input_ranges::Refusal;
use pkcs12_bags::parts::oids::{
    CERTIFICATE_BAG, CRL_BAG, FRIENDLY_NAME, KEY_BAG, LOCAL_KEY_ID, SAFE_CONTENTS_BAG, SECRET_BAG,
    SHROUDED_KEY_BAG, X509_CERTIFICATE, X509_CRL, is_oid_of, octets_of_known,
};
use pkcs12_bags::parts::{EncryptedKeyBag, X509Bag};
use std::alloc::Global;
use std::ops::Range;
use x509_base::Attribute;
use x509_pkcs12::{RawSafeBag, RawSafeContents};

/// How many lists of bags may be in one another, so that a bag is in 64 others at most, as `from_bytes` has it of `Pfx`.
pub(crate) const LEVELS: u8 = 65;

/// The kind that an object identifier says. Of certificates and revocation lists it is that of X.509 ones.
fn kind_of(id: &ObjectIdentifierAsn1) -> BagKind
    ensures { IsKind result (octets_of id.now.0) }
{
    if is_oid_of(&id.0, octets_of_known(KEY_BAG)) {
        return BagKind::Key;
    }
    if is_oid_of(&id.0, octets_of_known(SHROUDED_KEY_BAG)) {
        return BagKind::ShroudedKey;
    }
    if is_oid_of(&id.0, octets_of_known(CERTIFICATE_BAG)) {
        return BagKind::Certificate;
    }
    if is_oid_of(&id.0, octets_of_known(CRL_BAG)) {
        return BagKind::Crl;
    }
    if is_oid_of(&id.0, octets_of_known(SECRET_BAG)) {
        return BagKind::Secret;
    }
    if is_oid_of(&id.0, octets_of_known(SAFE_CONTENTS_BAG)) {
        return BagKind::SafeContents;
    }
    BagKind::Other
}

/// Whether what a bag of certificates or revocation lists holds is an X.509 one. Its element begins there in the input.
fn is_x509<const KNOWN: usize>(alloc: Global, element: &[u8], start: usize) -> Result<bool, Refusal>
    ensures { Finds (IsEither KNOWN element.now) result }
{
    let held: X509Bag<KNOWN> = read_at(alloc, element, start)?;
    match &held {
        X509Bag::X509(_der) => Ok(true),
        X509Bag::Unknown { .. } => Ok(false),
    }
}

/// The kind of a bag of certificates.
fn kind_of_certificate(alloc: Global, element: &[u8], start: usize) -> Result<BagKind, Refusal>
    ensures { Finds (IsHeld Certificate element.now) result }
{
    let is_x509 = is_x509::<X509_CERTIFICATE>(alloc, element, start)?;
    if is_x509 {
        return Ok(BagKind::Certificate);
    }
    Ok(BagKind::OtherCertificate)
}

/// The kind of a bag of revocation lists.
fn kind_of_list(alloc: Global, element: &[u8], start: usize) -> Result<BagKind, Refusal>
    ensures { Finds (IsHeld Crl element.now) result }
{
    let is_x509 = is_x509::<X509_CRL>(alloc, element, start)?;
    if is_x509 {
        return Ok(BagKind::Crl);
    }
    Ok(BagKind::OtherCrl)
}

/// The kind of a bag of encrypted keys, which is read.
fn kind_of_key(alloc: Global, element: &[u8], start: usize) -> Result<BagKind, Refusal>
    ensures { Finds (IsHeld ShroudedKey element.now) result }
{
    let _key: EncryptedKeyBag = read_at(alloc, element, start)?;
    Ok(BagKind::ShroudedKey)
}

/// The kind of a bag whose object identifier says `named`, by its element too, which begins there in the input.
fn kind_held(
    alloc: Global,
    named: BagKind,
    element: &[u8],
    start: usize,
) -> Result<BagKind, Refusal>
    ensures { Finds (IsHeld (named_kind named) element.now) result }
{
    match named {
        BagKind::Certificate => kind_of_certificate(alloc, element, start),
        BagKind::OtherCertificate => kind_of_certificate(alloc, element, start),
        BagKind::Crl => kind_of_list(alloc, element, start),
        BagKind::OtherCrl => kind_of_list(alloc, element, start),
        BagKind::ShroudedKey => kind_of_key(alloc, element, start),
        BagKind::Key => Ok(BagKind::Key),
        BagKind::Secret => Ok(BagKind::Secret),
        BagKind::SafeContents => Ok(BagKind::SafeContents),
        BagKind::Other => Ok(BagKind::Other),
        BagKind::Unread => Ok(BagKind::Unread),
    }
}

/// Where what a bag of a kind holds is.
fn value_range(input: &[u8], bag: &Range<usize>, kind: BagKind) -> Range<usize>
    ensures { LeadsIn (value_steps kind) input.now bag.now result }
{
    match kind {
        BagKind::Certificate => x509_octets(input, bag),
        BagKind::OtherCertificate => other_element(input, bag),
        BagKind::Crl => x509_octets(input, bag),
        BagKind::OtherCrl => other_element(input, bag),
        BagKind::ShroudedKey => element_of_bag(input, bag),
        BagKind::Key => element_of_bag(input, bag),
        BagKind::Secret => element_of_bag(input, bag),
        BagKind::SafeContents => element_of_bag(input, bag),
        BagKind::Other => element_of_bag(input, bag),
        BagKind::Unread => element_of_bag(input, bag),
    }
}

/// The index of the first attribute with that object identifier, or 0.
fn index_of(attributes: &[Attribute], oid: &[u8]) -> usize
    ensures { IsOnlyAt oid.now (map attribute_value attributes.now) result }
{
    for (index, attribute) in attributes.iter().enumerate() {
        if is_oid_of(&attribute.ty.0, oid) {
            return index;
        }
    }
    0
}

/// The range of a bag's friendly name. Several are refused, as `RawSafeBag::friendly_name` does.
#[tactic(auto, using(crate::proofs::Attributes::is_absent, crate::proofs::Attributes::no_only))]
fn name_range(
    alloc: Global,
    input: &[u8],
    place: &Range<usize>,
    bag: &RawSafeBag,
) -> Result<Option<Range<usize>>, Refusal>
    requires { IsIn BAG.format.Reads input.now place.now.start place.now.end (raw_safe_bag_value bag.now) }
    ensures { MatchResult result
        (λ r. IsNameAt input.now place.now.start place.now.end (raw_safe_bag_value bag.now) r)
        (λ e. HasNoName (raw_safe_bag_value bag.now) e) }
{
    let index = index_of(bag.attributes(), octets_of_known(FRIENDLY_NAME));
    match bag.friendly_name(alloc) {
        Ok(Some(_name)) => Ok(Some(attribute_octets(input, place, index))),
        Ok(None) => Ok(None),
        Err(error) => Err(refused(error, attribute(input, place, index).start, 0)),
    }
}

/// The range of a bag's local key identifier, alike.
#[tactic(auto, using(crate::proofs::Attributes::is_absent, crate::proofs::Attributes::no_only))]
fn key_id_range(
    alloc: Global,
    input: &[u8],
    place: &Range<usize>,
    bag: &RawSafeBag,
) -> Result<Option<Range<usize>>, Refusal>
    requires { IsIn BAG.format.Reads input.now place.now.start place.now.end (raw_safe_bag_value bag.now) }
    ensures { MatchResult result
        (λ r. IsKeyIdAt input.now place.now.start place.now.end (raw_safe_bag_value bag.now) r)
        (λ e. HasNoKeyId (raw_safe_bag_value bag.now) e) }
{
    let index = index_of(bag.attributes(), octets_of_known(LOCAL_KEY_ID));
    match bag.local_key_id(alloc) {
        Ok(Some(_id)) => Ok(Some(attribute_octets(input, place, index))),
        Ok(None) => Ok(None),
        Err(error) => Err(refused(error, attribute(input, place, index).start, 0)),
    }
}

/// The ranges of a bag, which is there in the input, and in which so many further levels are allowed.
#[tactic(auto, using(crate::proofs::InBags::no_kind, crate::proofs::InBags::no_name, crate::proofs::InBags::no_key_id, crate::proofs::InBags::is_bag))]
fn ranges_of(
    alloc: Global,
    input: &[u8],
    place: &Range<usize>,
    bag: &RawSafeBag,
    below: u8,
) -> Result<BagRanges, Refusal>
    requires { IsIn BAG.format.Reads input.now place.now.start place.now.end (raw_safe_bag_value bag.now) }
    ensures { MatchResult result
        (λ r. IsBagAt below input.now place.now.start place.now.end (raw_safe_bag_value bag.now) r)
        (λ e. HasNoRow below input.now (raw_safe_bag_value bag.now) e) }
{
    let start = element_of_bag(input, place).start;
    let kind = kind_held(alloc, kind_of(&bag.bag_id), bag.value(), start)?;
    let friendly_name = name_range(alloc, input, place, bag)?;
    let local_key_id = key_id_range(alloc, input, place, bag)?;
    Ok(BagRanges {
        kind,
        level: 64u8.saturating_sub(below),
        element: place.start..place.end,
        value: value_range(input, place, kind),
        friendly_name,
        local_key_id,
    })
}

/// Adds the row of a bag, which is there in the input, and those of the bags in it, of which so many levels are allowed.
#[cycle(rows)]
#[tactic(auto, using(crate::proofs::InBags::no_row, crate::proofs::InBags::no_row_inside, crate::proofs::InBags::are_of_bag))]
fn push_bag(
    alloc: Global,
    input: &[u8],
    place: &Range<usize>,
    bag: &RawSafeBag,
    below: u8,
    rows: &mut Vec<BagRanges>,
) -> Result<(), Refusal>
    requires { IsIn BAG.format.Reads input.now place.now.start place.now.end (raw_safe_bag_value bag.now) }
    ensures { Pushes (AreOfBag (AreBags below input.now) below input.now (raw_safe_bag_value bag.now)) place.now.start place.now.end rows.old.items rows.new.items result }
{
    let own = ranges_of(alloc, input, place, bag, below)?;
    let value = own.value.start..own.value.end;
    rows.push(own)?;
    push_inside(alloc, input, &value, bag, below, rows)?;
    Ok(())
}

/// Adds the rows of the bags in a bag, whose value is there in the input.
#[cycle(rows)]
#[tactic(auto, using(crate::proofs::InBags::none_inside, crate::proofs::InBags::are_inside, crate::proofs::InBags::not_inside, crate::proofs::InBags::no_rows_inside))]
fn push_inside(
    alloc: Global,
    input: &[u8],
    value: &Range<usize>,
    bag: &RawSafeBag,
    below: u8,
    rows: &mut Vec<BagRanges>,
) -> Result<(), Refusal>
    requires { IsElementIn input.now (raw_safe_bag_value bag.now) value.now }
    ensures { Pushes (AreInBag (AreBags below input.now) (raw_safe_bag_value bag.now)) value.now.start value.now.end rows.old.items rows.new.items result }
{
    if !is_oid_of(&bag.bag_id.0, octets_of_known(SAFE_CONTENTS_BAG)) {
        return Ok(());
    }
    let held: RawSafeContents = read_at(alloc, bag.value(), value.start)?;
    push_bags(alloc, input, value, held.0.as_slice(), below, rows)?;
    Ok(())
}

/// Adds the rows of the bags of a `SafeContents`, which is there in the input, in at most so many levels.
#[cycle(rows)]
#[tactic(auto, using(crate::proofs::InBags::too_deep, crate::proofs::InBags::one_level, crate::proofs::InBags::no_level))]
pub(crate) fn push_bags(
    alloc: Global,
    input: &[u8],
    place: &Range<usize>,
    bags: &[RawSafeBag],
    levels: u8,
    rows: &mut Vec<BagRanges>,
) -> Result<(), Refusal>
    requires { IsIn SAFE.format.Reads input.now place.now.start place.now.end (map raw_safe_bag_value bags.now) }
    ensures { Pushes (AreBags levels input.now (map raw_safe_bag_value bags.now)) place.now.start place.now.end rows.old.items rows.new.items result }
{
    if levels == 0 {
        return Err(Refusal::Part(Error::TooDeep, place.start));
    }
    let list = bags_in(input, place);
    push_all(alloc, input, &list, bags, levels - 1, rows)?;
    Ok(())
}

/// Adds the rows of bags that follow one another in a range of the input.
#[cycle(rows)]
#[tactic(auto, using(crate::proofs::Rows::none_yet, crate::proofs::Rows::one_more, crate::proofs::Rows::all_of_them, crate::proofs::Rows::none_of_one))]
fn push_all(
    alloc: Global,
    input: &[u8],
    list: &Range<usize>,
    bags: &[RawSafeBag],
    below: u8,
    rows: &mut Vec<BagRanges>,
) -> Result<(), Refusal>
    requires { IsIn (each BAG.format).Reads input.now list.now.start list.now.end (map raw_safe_bag_value bags.now) }
    ensures { Pushes (InOrder (AreOfBag (AreBags below input.now) below input.now) (map raw_safe_bag_value bags.now)) list.now.start list.now.end rows.old.items rows.new.items result }
{
    let mut start = list.start;
    for bag in bags {
        let rest = start..list.end;
        let place = first_element(input, &rest);
        push_bag(alloc, input, &place, bag, below, rows)?;
        start = place.end;
    }
    Ok(())
}
