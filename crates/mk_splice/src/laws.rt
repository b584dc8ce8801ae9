//! Laws of steps and journals, over the definitions alone: each a function with an empty body whose clauses are the law.
ghost use Rattle.std.specs.Prelude.{◌≡◌, ◌++◌, [], Ok, Err, codes, IsOk};
ghost use Rattle.mk_splice.specs.Misfits.{FitsAreTold};
ghost use Rattle.mk_splice.specs.Journals.{digest_of, journal};
ghost use Rattle.mk_splice.specs.JournalLaws.{abc_digest, empty_digest, FoundIsSpelled, OffsetIsLongest, PrintedIsRead, PrintedOfTextIsRead, SpelledIsFound};

/// Steps fit a text exactly where none is named that doesn't.
pub fn fits_are_told()
    ensures { FitsAreTold }
{}

/// A file is read as a journal exactly where the journal spells it; else the offset is the length of its longest prefix
/// that some journal begins with.
pub fn journals_are_spelled()
    ensures found { FoundIsSpelled }
    ensures only { SpelledIsFound }
    ensures offset { OffsetIsLongest }
{}

/// A journal that is printed is read, and means what was printed.
pub fn printed_journals_are_read()
    ensures any { PrintedIsRead }
    ensures of_text { PrintedOfTextIsRead }
{}

/// Files that are journals, and files that stop being the beginning of one.
pub fn known_journals()
    ensures empty_file { journal (codes "") ≡ Err 0 }
    ensures unknown_version { journal (codes "mimejournal 3\n") ≡ Err 12 }
    ensures leading_zero { journal (codes "mimejournal 1\n01 0\n") ≡ Err 15 }
    ensures too_many_digits { journal (codes "mimejournal 1\n123456789012345678901 0\n") ≡ Err 34 }
    ensures byte_after { journal (codes "mimejournal 1\n0 0\nx") ≡ Err 18 }
    ensures no_steps { IsOk (journal (codes "mimejournal 1\n0 0\n")) }
    ensures entry_cut_short { journal (codes "mimejournal 1\n1 0\n5 0 6\nabc") ≡ Err 27 }
    ensures step_of_no_entries { IsOk (journal (codes "mimejournal 2\n" ++ (empty_digest ++ codes "\n1 0\n0\n"))) }
    ensures capital_digit { journal (codes "mimejournal 2\nE3b0c44298fc1c149afbf4c8996fb92427ae41e4649b934ca495991b7852b855\n1 0\n0\n") ≡ Err 14 }
    ensures step_of_one_entry { IsOk (journal (codes "mimejournal 2\n" ++ (abc_digest ++ codes "\n1 0\n1\n0 0 3\nabc\n"))) }
{}

/// The digest of the empty text, and that of `abc`, the example of FIPS 180-4.
pub fn known_digests()
    ensures empty { digest_of [] ≡ empty_digest }
    ensures abc { digest_of (codes "abc") ≡ abc_digest }
{}
