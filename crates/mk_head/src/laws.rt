//! Laws of headers and values, each a function with an empty body whose clause is the law.
ghost use Rattle.std.specs.Prelude.{◌≡◌, ◌++◌, [], ◌∷◌, ℕ, Bool, List, Some, true, false, codes};
ghost use Rattle.std.specs.List.{join_with_byte, list_all};
ghost use Rattle.mk_line.specs.Ascii.{quote, semicolon};
ghost use Rattle.mk_line.specs.Lines.{TextLine};
ghost use Rattle.mk_line.specs.Marks.{trimmed};
ghost use Rattle.mk_head.specs.Grammar.{IsQuoted, IsValue};
ghost use Rattle.mk_head.specs.Split.{Head, after_head, head_lines, head_of};
ghost use Rattle.mk_head.specs.Splits.{IsSplit};
ghost use Rattle.mk_head.specs.Types.{boundary_of, header_type};
ghost use Rattle.mk_head.specs.Values.{MediaType, Plain, content_type_of, media_type, param_of, pieces, uncommented, unquoted};

/// A head and lines after it that don't run on into it are read as that head and those lines.
pub fn splits_are_read()
    ensures { (head : Head) (lines : List TextLine) → IsSplit head lines →
        (head_of (head_lines head ++ lines) ≡ head) × (after_head (head_lines head ++ lines) ≡ lines) }
{}

/// The head that lines are read as, and the lines after it, are apart.
pub fn reads_are_split()
    ensures { (lines : List TextLine) → IsSplit (head_of lines) (after_head lines) }
{}

/// No fields mean text/plain.
pub fn no_fields_mean_plain_text()
    ensures { header_type false [] ≡ media_type (codes "text") (codes "plain") [] }
{}

/// All bytes of a parameter's value are bytes of the field's value: a test that these pass, it passes.
pub fn parameters_are_bytes_of_the_value()
    ensures { (test : ℕ → Bool) (value name bytes : List ℕ) → list_all test value ≡ true →
        param_of name (content_type_of value).params ≡ Some bytes → list_all test bytes ≡ true }
{}

/// A boundary has no blank at its end.
pub fn boundaries_are_trimmed()
    ensures { (media : MediaType) → trimmed (boundary_of media) ≡ boundary_of media }
{}

/// A value that the grammar has loses its comments and nothing else, and its pieces are those between its semicolons.
pub fn values_are_read()
    ensures { (value : List ℕ) (parts : List (List ℕ)) → IsValue value parts →
        (uncommented Plain value ≡ join_with_byte semicolon parts) × (pieces Plain (uncommented Plain value) ≡ parts) }
{}

/// A quoted string that the grammar has stands for its bytes, whatever follows it.
pub fn quoted_strings_are_read()
    ensures { (text bytes more : List ℕ) → IsQuoted text bytes → unquoted false (text ++ quote ∷ more) ≡ bytes }
{}
