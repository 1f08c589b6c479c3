//! What holds of files in BER, for callers to cite.

ghost use Rattle.std.specs.Prelude.{◌≡◌, ◌↔◌, ◌^◌, ◌<◌, ℕ, List, Some, length};
ghost use Rattle.asn1_core.specs.Der.{raw};
ghost use Rattle.ber_der.specs.Der.{IsDer};
ghost use Rattle.x509_pkcs12.specs.MacOctets.{mac_octets};
ghost use Rattle.x509_pkcs12.specs.Pfxs.{PfxValue, pfx};
ghost use Rattle.pkcs12_ber.specs.Files.{IsBerFile};
ghost use Rattle.pkcs12_ber.specs.InDer.{IsSafeInDer};

use x509_pkcs12::AuthenticatedSafeDataRepr;

/// A file has one reading.
pub fn a_file_has_one_reading<R: AuthenticatedSafeDataRepr>()
    ensures { (b : List ℕ) (w x : PfxValue (List ℕ)) (v y : PfxValue R.Value) → IsBerFile R.format b w v → IsBerFile R.format b x y
        → (w ≡ x) × (v ≡ y) }
{}

/// A file in DER, of which the octets that the MAC covers are DER with DER in all data, is read as `RawPfx` and as
/// `Pfx<R>` read it.
pub fn der_files_read_as_pfx<R: AuthenticatedSafeDataRepr>()
    ensures { (b : List ℕ) (w : PfxValue (List ℕ)) (v : PfxValue R.Value) → length b < 2 ^ 64 → IsDer 64 b
        → ((octets : List ℕ) → mac_octets w ≡ Some octets → IsSafeInDer octets octets)
        → IsBerFile R.format b w v ↔ ((pfx raw).Reads 64 b w × (pfx R.format).Reads 64 b v) }
{}
