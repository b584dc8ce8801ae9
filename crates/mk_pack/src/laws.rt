//! Laws of runs, over the definitions alone: each a function with an empty body whose clause is the law.

ghost use Rattle.std.specs.Prelude.{◌<◌, ◌≡◌, ◌^◌, ℕ, List, [], length, true};
ghost use Rattle.std.specs.List.{AllByRecursion, flat_map};
ghost use Rattle.mk_head.specs.Boundaries.{is_boundary};
ghost use Rattle.mk_build.specs.Building.{Attached};
ghost use Rattle.mk_build.specs.Forwards.{Forwarded};
ghost use Rattle.mk_pack.specs.FreeBoundary.{are_clear, free_boundary, last_number, line_count};
ghost use Rattle.mk_pack.specs.OwnBoundary.{boundary_beside, measured, own_boundary};
ghost use Rattle.mk_pack.specs.Packing.{BodiesAreRefused};

/// A text with a body is never packed: its first field that can't be at the start is named, or else their number.
pub fn bodies_are_refused()
    ensures { BodiesAreRefused }
{}

/// The boundary that is made of what is packed is always valid.
pub fn own_boundaries_are_boundaries()
    ensures { (fields : List (List ℕ)) (parts : List Attached) → is_boundary (own_boundary fields parts) ≡ true }
{}

/// The boundary that is made of a section and a part beside it is always valid.
pub fn boundaries_beside_are_boundaries()
    ensures { (section part : List ℕ) → is_boundary (boundary_beside section part) ≡ true }
{}

/// Where no message is forwarded, the boundary is that of the fields and the parts.
pub fn free_boundaries_are_own()
    ensures { (fields : List (List ℕ)) (parts : List Attached) → free_boundary fields parts [] ≡ own_boundary fields parts }
{}

/// With forwarded messages, too, the boundary that is made is always valid.
pub fn free_boundaries_are_boundaries()
    ensures { (fields : List (List ℕ)) (parts : List Attached) (messages : List Forwarded) →
        is_boundary (free_boundary fields parts messages) ≡ true }
{}

/// No line of a forwarded message begins with the boundary that is made: of the boundaries that are tried, one more than the
/// messages have lines would have to fail, and no line fails two of those with numbers.
pub fn free_boundaries_are_free()
    ensures { (fields : List (List ℕ)) (parts : List Attached) (messages : List Forwarded) → line_count messages < last_number →
        are_clear (free_boundary fields parts messages) messages ≡ true }
{}

/// No two lists of texts are written alike where each text stands after its length, as they do to make a boundary.
pub fn measured_lists_differ()
    ensures { (xs ys : List (List ℕ)) → AllByRecursion (λ x. length x < 2 ^ 64) xs → AllByRecursion (λ y. length y < 2 ^ 64) ys →
        flat_map measured xs ≡ flat_map measured ys → xs ≡ ys }
{}
