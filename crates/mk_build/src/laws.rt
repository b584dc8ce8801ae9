//! Laws of built messages, over the definitions alone: each a function with an empty body whose clause is the law.

ghost use Rattle.std.specs.Prelude.{◌≡◌, ℕ, List, []};
ghost use Rattle.mk_line.specs.declared.cutting.Ending.{Ending};
ghost use Rattle.mk_build.specs.Building.{Attached};
ghost use Rattle.mk_build.specs.Forwards.{build_refusal, built, built_with, refusal_with};
ghost use Rattle.mk_build.specs.Multiparts.{mixed};

/// The message that `build` makes is the one that `build_with` makes of a multipart/mixed without a charset, and of no forwarded
/// message; and so are the reasons.
pub fn built_is_mixed()
    ensures { (eol : Ending) (fields : List (List ℕ)) (parts : List Attached) (boundary : List ℕ) →
        (built eol fields parts boundary ≡ built_with eol fields parts [] (mixed boundary))
        × (build_refusal fields parts boundary ≡ refusal_with fields parts [] (mixed boundary)) }
{}
