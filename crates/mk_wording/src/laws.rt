//! Laws of fields in encoded words and of addresses, each a function with an empty body whose clause is the law.

ghost use Rattle.std.specs.Prelude.{◌≡◌, ℕ, List, Some};
ghost use Rattle.mk_line.specs.declared.cutting.Ending.{Ending};
ghost use Rattle.mk_wording.specs.AddressLaws.{PlainAddressesAreLines};
ghost use Rattle.mk_wording.specs.Lists.{worded_list, worded_parameters};
ghost use Rattle.mk_wording.specs.Stretches.{worded_text};
ghost use Rattle.mk_wording.specs.WordingLaws.{IsWordedAs};
ghost use Rattle.mk_wording.specs.declared.lists.ListKind.TheVariants.{Addresses};
ghost use Rattle.mk_wording.specs.declared.stretches.Outside.TheVariants.{Ascii};

/// Of a list of addresses that goes in as encoded words all bytes outside names and comments stay.
pub fn addresses_stay()
    ensures { (eol : Ending) (value made : List ℕ) → worded_list Addresses eol value ≡ Some made → IsWordedAs eol value made }
{}

/// Of a value with parameters all bytes outside parameters and comments stay.
pub fn parameters_stay()
    ensures { (eol : Ending) (value made : List ℕ) → worded_parameters eol value ≡ Some made → IsWordedAs eol value made }
{}

/// Of other structured values all bytes outside comments stay.
pub fn comments_stay()
    ensures { (eol : Ending) (value made : List ℕ) → worded_text Ascii eol value ≡ Some made → IsWordedAs eol value made }
{}

/// Of a list of plain addresses, each with a comma after it, each is printed on a line.
pub fn plain_addresses_are_lines()
    ensures { PlainAddressesAreLines }
{}
