//! Laws of parameters, each a function with an empty body whose clause is the law.
ghost use Rattle.std.specs.Prelude.{◌≡◌, ℕ, List, Some, nat_lt, true};
ghost use Rattle.std.specs.List.{list_all};
ghost use Rattle.std.specs.Str.{IsUtf8};
ghost use Rattle.mk_param.specs.Percents.{percent_decoded, percent_encoded};
ghost use Rattle.mk_param.specs.Said.{said_text};

/// Bytes come back from percent signs.
pub fn percent_round_trip()
    ensures { (bytes : List ℕ) → list_all (λ byte. nat_lt byte 256) bytes ≡ true → percent_decoded (percent_encoded bytes) ≡ Some bytes }
{}

/// What parameters say is UTF-8.
pub fn said_texts_are_utf8()
    ensures { (name : List ℕ) (params : List (List ℕ × List ℕ)) (text : List ℕ) → said_text name params ≡ Some text → IsUtf8 text }
{}
