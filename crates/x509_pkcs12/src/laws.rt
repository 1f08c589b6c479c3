//! What holds of a PFX in every representation.

ghost use Rattle.std.specs.Prelude.{◌≡◌, ◌↔◌, ℕ, List, Option, Some};
ghost use Rattle.asn1_core.specs.Der.{raw};
ghost use Rattle.x509_pkcs12.specs.Agree.{ReadsAs};
ghost use Rattle.x509_pkcs12.specs.MacOctets.{mac_octets, Covers, Rewritten};
ghost use Rattle.x509_pkcs12.specs.Pfxs.{PfxValue, pfx};

use crate::representations::AuthenticatedSafeDataRepr;

/// `Pfx<R>` reads an input exactly where the raw one does and its data, if there is any, reads as `R`. The version, the
/// MAC data and other contents are the same.
pub fn reads_as_the_raw_one<R: AuthenticatedSafeDataRepr>()
    ensures { (k : ℕ) (b : List ℕ) (v : PfxValue R.Value) → (pfx R.format).Reads k b v
        ↔ ((w : PfxValue (List ℕ)) × (pfx raw).Reads k b w × ReadsAs (R.format.Reads k) w v) }
{}

/// Whatever else an input holds, the octets that its MAC covers are the contents octets of the OCTET STRING in its
/// `authSafe`: an accepted raw PFX can differ from its normal (canonical) encoding in its MAC data alone.
pub fn mac_octets_stand_in_the_input()
    ensures { (k : ℕ) (b octets : List ℕ) (w : PfxValue (List ℕ)) → (pfx raw).Reads k b w
        → mac_octets w ≡ Some octets → Covers b octets }
{}

/// Whatever else a raw PFX holds, the octets that its MAC covers are the contents octets of the OCTET STRING in
/// `authSafe` of its encoding.
pub fn mac_octets_stand_in_the_text()
    ensures { (w : PfxValue (List ℕ)) (octets : List ℕ) → mac_octets w ≡ Some octets → Covers ((pfx raw).text w) octets }
{}

/// Where a PFX that was read is written again, the octets that its MAC covers come back exactly where they are normal,
/// however the rest of it is encoded.
pub fn mac_octets_survive_where_normal<R: AuthenticatedSafeDataRepr>()
    ensures { (k : ℕ) (b octets : List ℕ) (w : PfxValue (List ℕ)) (v : PfxValue R.Value) → (pfx raw).Reads k b w
        → (pfx R.format).Reads k b v → mac_octets w ≡ Some octets → Rewritten R.format k ((pfx R.format).text v) octets }
{}
