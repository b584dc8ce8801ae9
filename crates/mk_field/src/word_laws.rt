//! Laws of values in encoded words, each a function with an empty body whose clause is the law.

ghost use Rattle.std.specs.Prelude.{◌++◌, ◌≡◌, ℕ, List, codes, false, true};
ghost use Rattle.std.specs.Str.{IsUtf8};
ghost use Rattle.base64.specs.GeneralPurpose.{IsBytes};
ghost use Rattle.mk_line.specs.Kinds.{is_name};
ghost use Rattle.mk_line.specs.declared.cutting.Ending.{Ending};
ghost use Rattle.mk_head.specs.Values.{stripped};
ghost use Rattle.mk_mail.specs.Prepended.{is_one_line};
ghost use Rattle.mk_wording.specs.Values.{decoded_value};
ghost use Rattle.mk_wording.specs.Wording.{is_structured, worded_field};
ghost use Rattle.mk_field.specs.Filtering.{after_colon};

/// What goes into a field as encoded words is read again.
pub fn worded_fields_are_read()
    ensures { (eol : Ending) (name text : List ℕ) → is_name name ≡ true → is_structured name ≡ false → IsUtf8 text → IsBytes text →
        is_one_line text ≡ true → stripped text ≡ text →
        decoded_value (after_colon (worded_field eol (name ++ (codes ": " ++ text)))) ≡ text }
{}
