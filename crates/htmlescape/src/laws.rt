//! Laws of encoding and decoding. Each is the contract of a function that does nothing.
ghost use Rattle.std.specs.Prelude.{◌≡◌, ◌<◌, ◌^◌, ℕ, List, Result, true, not, length, encode_utf8_all, IsUtf8};
ghost use Rattle.std.specs.List.{list_all};
ghost use Rattle.std.specs.Str.{all_scalars, chars};
ghost use Rattle.htmlescape.specs.declared.alphabet.Alphabet.TheVariants.{Minimal, Attribute};
ghost use Rattle.htmlescape.specs.declared.faults.DecodeErr.{DecodeErr};
ghost use Rattle.htmlescape.specs.declared.faults.DecodeErrKind.{DecodeErrKind};
ghost use Rattle.htmlescape.specs.Escapes.{encoded, is_markup, is_harmless};
ghost use Rattle.htmlescape.specs.Grammar.{IsText, HasFault};
ghost use Rattle.htmlescape.specs.Decoding.{Answers, Decodes, IsIo};

/// Decoding either encoding of a text gives the text.
pub fn decoding_undoes_encoding()
    ensures minimal { (text : List ℕ) → all_scalars text ≡ true → IsText (encoded Minimal text) text }
    ensures attribute { (text : List ℕ) → all_scalars text ≡ true → IsText (encoded Attribute text) text }
{}

/// `encode_minimal` gives none of `<`, `>`, `"`, `'`.
pub fn minimal_leaves_out_markup()
    ensures characters { (text : List ℕ) → list_all (λ c. not (is_markup c)) (encoded Minimal text) ≡ true }
    ensures bytes { (text : List ℕ)
        → list_all (λ b. not (is_markup b)) (encode_utf8_all (encoded Minimal text)) ≡ true }
{}

/// `encode_attribute` gives no ASCII character but letters, digits, `&`, `#`, `;`.
pub fn attribute_is_harmless()
    ensures characters { (text : List ℕ) → list_all is_harmless (encoded Attribute text) ≡ true }
    ensures bytes { (text : List ℕ) → list_all is_harmless (encode_utf8_all (encoded Attribute text)) ≡ true }
{}

/// A text stands for one text, or has one fault at one place, and not both.
pub fn one_reading()
    ensures value { (text v w : List ℕ) → IsText text v → IsText text w → v ≡ w }
    ensures apart { (text v w : List ℕ) (kind : DecodeErrKind) (position : ℕ) → IsText text v
        → HasFault text kind position w → ⊥ }
    ensures fault { (text v w : List ℕ) (j k : DecodeErrKind) (p q : ℕ) → HasFault text j p v → HasFault text k q w
        → (j ≡ k) × (p ≡ q) × (v ≡ w) }
{}

/// On a text of fewer than 2^60 characters `decode_html_rw` answers and writes what `decode_html` does, where neither
/// reader nor writer fails.
pub fn decoders_agree()
    ensures { (bytes : List ℕ) (one other : Result (Unit {0}) DecodeErr) (v w : List ℕ) → IsUtf8 bytes
        → length (chars bytes) < 2 ^ 60
        → Answers (chars bytes) one v → Decodes (2 ^ 60) bytes other w → ¬ (IsIo other) → (one ≡ other) × (v ≡ w) }
{}
