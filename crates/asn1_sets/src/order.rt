//! The order of elements: their encodings ascend (X.690, 11.6).

ghost use Rattle.std.specs.Prelude.{◌≡◌, map};
ghost use Rattle.asn1_sets.specs.Order.{IsInOrder, compared};

use asn1_borrowed::ElementRef;
use asn1_core::Asn1RawDer;

/// Puts elements in the order that DER has them in within a SET OF (X.690, 11.6). Takes no memory.
pub fn put_in_order(elements: &mut [Asn1RawDer])
    ensures { IsInOrder (map (λ x. x.0.items) elements.old) (map (λ x. x.0.items) elements.new) }
{
    elements.sort_unstable_by(
        |x: &Asn1RawDer, y: &Asn1RawDer|
            ensures { result ≡ compared x.now.0.items y.now.0.items }
        { x.0.as_slice().cmp(y.0.as_slice()) },
    );
}

/// The same of borrowed elements.
pub fn put_refs_in_order(elements: &mut [ElementRef<'_>])
    ensures { IsInOrder (map (λ x. x.0.now) elements.old) (map (λ x. x.0.now) elements.new) }
{
    elements.sort_unstable_by(
        |x: &ElementRef<'_>, y: &ElementRef<'_>|
            ensures { result ≡ compared x.now.0.now y.now.0.now }
        { x.0.cmp(y.0) },
    );
}
