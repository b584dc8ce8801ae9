//! The fields at the start of a text, one by one and without memory.
ghost use Rattle.std.specs.Prelude.{◌≡◌, ◌≤◌, false, length};
ghost use Rattle.std.specs.Iterator.{YieldsFirstBy, item_count};
ghost use Rattle.mk_line.specs.Lines.{cut as lines_of};
ghost use Rattle.mk_head.specs.Split.{fields_from};
ghost use Rattle.mk_head.specs.Fields.{fields_of};
ghost use Rattle.mk_head.specs.Views.{field_view};

use crate::fields::Field;
use crate::reading::first_field;
use std::marker::Model;

/// The fields at the start of a text that are still to come, from the first on.
#[derive(Drop)]
pub struct Fields<'a> {
    rest: &'a [u8],
}

impl<'a> Model for Fields<'a> {
    ghost use Rattle.std.specs.Prelude.{List, false};
    ghost use Rattle.mk_line.specs.Lines.{cut as lines_of};
    ghost use Rattle.mk_head.specs.Split.{fields_from};
    ghost use Rattle.mk_head.specs.Fields.{FieldText, fields_of};

    ghost Value = { List FieldText };

    ghost view = { λ f. fields_of (fields_from false (lines_of f.rest.now)) };
}

impl<'a> Iterator for Fields<'a> {
    type Item = Field<'a>;

    ghost next_gives = { YieldsFirstBy field_view (λ s. s) };

    ghost remaining = { item_count (λ s. s) };

    fn next(&mut self) -> Option<Field<'a>> {
        let (field, rest) = first_field(self.rest)?;
        self.rest = rest;
        Some(field)
    }
}

/// The fields at the start of a text, the longest run of them.
pub fn each_field(text: &[u8]) -> Fields<'_>
    ensures fields { result ≡ fields_of (fields_from false (lines_of text.now)) }
    ensures few { length result ≤ length text.now }
{
    Fields { rest: text }
}
