//! The groups, in turn. Made of asn1/object_identifiers.txt.

ghost use Rattle.std.specs.Prelude.{ℕ, List, MatchOption};
ghost use Rattle.oid_names.specs.Names.{IsObjectName};

mod attributes;
mod ciphers;
mod content_types;
mod curves;
mod digests;
mod extensions;
mod further_ciphers;
mod further_extensions;
mod keys;
mod macs;
mod microsoft;
mod name_types;
mod ocsp;
mod passwords;
mod rsa_and_dsa;
mod smime_attributes;
mod stores;
mod usages;

/// The name of an object identifier, by its contents octets. `None` where no row of the table has them.
pub fn object_name(octets: &[u8]) -> Option<&'static str>
    ensures { MatchOption result
        ((name : List ℕ) → ¬ (IsObjectName octets.now name))
        (λ name. IsObjectName octets.now name.now) }
{
    if let Some(name) = digests::name(octets) {
        return Some(name);
    }
    if let Some(name) = macs::name(octets) {
        return Some(name);
    }
    if let Some(name) = passwords::name(octets) {
        return Some(name);
    }
    if let Some(name) = rsa_and_dsa::name(octets) {
        return Some(name);
    }
    if let Some(name) = curves::name(octets) {
        return Some(name);
    }
    if let Some(name) = keys::name(octets) {
        return Some(name);
    }
    if let Some(name) = ciphers::name(octets) {
        return Some(name);
    }
    if let Some(name) = further_ciphers::name(octets) {
        return Some(name);
    }
    if let Some(name) = content_types::name(octets) {
        return Some(name);
    }
    if let Some(name) = attributes::name(octets) {
        return Some(name);
    }
    if let Some(name) = smime_attributes::name(octets) {
        return Some(name);
    }
    if let Some(name) = stores::name(octets) {
        return Some(name);
    }
    if let Some(name) = name_types::name(octets) {
        return Some(name);
    }
    if let Some(name) = extensions::name(octets) {
        return Some(name);
    }
    if let Some(name) = further_extensions::name(octets) {
        return Some(name);
    }
    if let Some(name) = usages::name(octets) {
        return Some(name);
    }
    if let Some(name) = ocsp::name(octets) {
        return Some(name);
    }
    if let Some(name) = microsoft::name(octets) {
        return Some(name);
    }
    None
}
