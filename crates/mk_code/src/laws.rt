//! Laws of the encodings, each a function with an empty body whose clause is the law.
ghost use Rattle.std.specs.Prelude.{◌≡◌, ◌≢◌, ◌↔◌, ℕ, List, Some, drop, length, map, take_while, true, false, encode_utf8, encode_utf8_all};
ghost use Rattle.std.specs.List.{list_any};
ghost use Rattle.std.specs.Str.{IsUtf8, bytes_eq};
ghost use Rattle.base64.specs.GeneralPurpose.{IsBytes};
ghost use Rattle.mk_line.specs.declared.cutting.Ending.{Ending as LineEnding};
ghost use Rattle.mk_line.specs.declared.cutting.Ending.TheVariants.{Missing};
ghost use Rattle.mk_line.specs.Lines.{cut};
ghost use Rattle.mk_head.specs.declared.encodings.Encoding.{Encoding as Transfer};
ghost use Rattle.mk_head.specs.declared.encodings.Encoding.TheVariants.{Qp, Base64};
ghost use Rattle.mk_code.specs.Base64Text.{IsBase64Of, base64_encoded, is_letter};
ghost use Rattle.mk_code.specs.Contents.{IsContent};
ghost use Rattle.mk_code.specs.EncodedWords.{AreShort, b_text, characters, in_utf8, is_padding, pieces, utf8_labels, words_decoded, words_encoded};
ghost use Rattle.mk_code.specs.OutputLines.{AreSafe};
ghost use Rattle.mk_code.specs.QuotedPrintable.{qp_encoded};

/// A text has no more than one content.
pub fn content_is_unique()
    ensures { (encoding : Transfer) (text one other : List ℕ) →
        IsContent encoding text one → IsContent encoding text other → one ≡ other }
{}

/// Bytes come back from quoted-printable.
pub fn qp_round_trip()
    ensures { (eol : LineEnding) (bytes : List ℕ) → eol ≢ Missing → IsBytes bytes →
        IsContent Qp (qp_encoded eol bytes) bytes }
{}

/// No line of quoted-printable has more than 76 characters, begins with a hyphen or is a From-line.
pub fn qp_lines_are_safe()
    ensures { (eol : LineEnding) (bytes : List ℕ) → eol ≢ Missing → IsBytes bytes →
        AreSafe (cut (qp_encoded eol bytes)) }
{}

/// Bytes come back from base64.
pub fn base64_round_trip()
    ensures { (eol : LineEnding) (bytes : List ℕ) → eol ≢ Missing → IsBytes bytes →
        IsContent Base64 (base64_encoded eol bytes) bytes }
{}

/// No line of base64 has more than 76 characters, begins with a hyphen or is a From-line.
pub fn base64_lines_are_safe()
    ensures { (eol : LineEnding) (bytes : List ℕ) → eol ≢ Missing → IsBytes bytes →
        AreSafe (cut (base64_encoded eol bytes)) }
{}

/// A text comes back from the encoded words of its value.
pub fn words_round_trip()
    ensures { (eol : LineEnding) (text : List ℕ) → IsBytes text →
        words_decoded (words_encoded eol text) ≡ text }
{}

/// What an encoded word says in base64 is base64 as elsewhere: where only padding follows its letters, it says the bytes that
/// these are the encoding of.
pub fn words_hold_base64()
    ensures { (text bytes : List ℕ) → is_padding (drop (length (take_while is_letter text)) text) ≡ true → IsBytes bytes →
        (b_text text ≡ Some bytes) ↔ IsBase64Of text bytes }
{}

/// The characters of a text in UTF-8 are its characters, each by its bytes.
pub fn characters_are_whole()
    ensures { (chars : List ℕ) → characters (encode_utf8_all chars) ≡ map encode_utf8 chars }
{}

/// No encoded word of a text in UTF-8 has more than 72 characters.
pub fn words_are_short()
    ensures { (text : List ℕ) → IsUtf8 text → AreShort (pieces (characters text) 0) }
{}

/// A text in a charset is UTF-8 once it is decoded; one that says it is UTF-8 stays as it is.
pub fn charsets_become_utf8()
    ensures { (charset bytes text : List ℕ) → list_any (bytes_eq charset) utf8_labels ≡ false → IsBytes bytes →
        in_utf8 charset bytes ≡ Some text → IsUtf8 text }
{}

/// What a text in a charset is decoded to, and encoded as UTF-8, decodes to itself.
pub fn charsets_come_back()
    ensures { (eol : LineEnding) (charset bytes text : List ℕ) → IsBytes bytes → in_utf8 charset bytes ≡ Some text →
        words_decoded (words_encoded eol text) ≡ text }
{}
