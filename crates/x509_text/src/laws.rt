//! What holds of escapes.

ghost use Rattle.std.specs.Prelude.{◌≡◌, ℕ, List};
ghost use Rattle.x509_text.specs.Escapes.{escape, unescape};

/// Escapes are read back, so that two values that are strings of one type, with one text, are the same.
#[tactic(auto, using(crate::proofs::Unescaping::all_back))]
pub fn escapes_are_read_back()
    ensures { (cs : List ℕ) → unescape (escape cs) ≡ cs }
{}
