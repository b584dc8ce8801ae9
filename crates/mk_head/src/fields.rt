//! A header that was read, and its fields.
ghost use Rattle.std.specs.Prelude.{◌≡◌, length, map};
ghost use Rattle.std.specs.Option.{option_map};
ghost use Rattle.mk_head.specs.Fields.{counted, find_field, is_named as named, FieldText};
ghost use Rattle.mk_head.specs.Views.{field_view};

use std::marker::Model;

/// A field of a header: a field start and all continuations directly after it.
#[derive(Clone, Copy, Debug)]
pub struct Field<'a> {
    /// The name as it is spelt.
    pub name: &'a [u8],
    /// All bytes of the field, line endings included.
    pub raw: &'a [u8],
}

impl Field<'_> {
    /// Whether the field has this name, without regard to ASCII case.
    pub fn is_named(&self, name: &[u8]) -> bool
        ensures { result ≡ named name.now (field_view self.now) }
    {
        self.name.eq_ignore_ascii_case(name)
    }
}

/// The header that a text begins with.
#[derive(Debug, Drop)]
pub struct Header<'a> {
    pub(crate) fields: Vec<Field<'a>>,
    pub(crate) separator: Option<usize>,
    pub(crate) body: usize,
}

impl<'a> Model for Header<'a> {
    ghost use Rattle.std.specs.Prelude.{map};
    ghost use Rattle.mk_head.specs.Fields.{HeaderView};

    ghost Value = { HeaderView };

    ghost use Rattle.mk_head.specs.Views.{field_view};

    ghost view = { λ h. record { fields = map field_view h.fields.items; separator = h.separator; body = h.body } };
}

impl<'a> Header<'a> {
    /// How many fields there are.
    pub fn fields(&self) -> usize
        ensures { result ≡ length self.now.fields }
    {
        self.fields.len()
    }

    /// The k-th field, counted from 1.
    pub fn field(&self, k: usize) -> Option<Field<'a>>
        ensures { option_map field_view result ≡ counted k self.now.fields }
    {
        let count = self.fields.len();
        if k == 0 {
            return None;
        }
        if k > count {
            return None;
        }
        Some(self.fields[k - 1])
    }

    /// The k-th field of a name, counted from 1; names are compared without regard to ASCII case.
    pub fn find(&self, name: &[u8], k: u32) -> Option<Field<'a>>
        ensures { option_map field_view result ≡ find_field name.now k self.now.fields }
    {
        let mut left = k;
        for field in &self.fields {
            if field.is_named(name) {
                if left == 1 {
                    return Some(*field);
                }
                left = left.saturating_sub(1);
            }
        }
        None
    }

    /// Where the separator begins, an offset in bytes from 0, if there is one.
    pub fn separator(&self) -> Option<usize>
        ensures { result ≡ self.now.separator }
    {
        self.separator
    }

    /// Where the body begins, an offset in bytes from 0.
    pub fn body(&self) -> usize
        ensures { result ≡ self.now.body }
    {
        self.body
    }
}
