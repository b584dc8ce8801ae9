//! What the header of a section says of its content: its type, its disposition and its name, each field read once.
ghost use Rattle.std.specs.Prelude.{◌≡◌, ℕ, List, Option, codes, IfOk};
ghost use Rattle.std.specs.Option.{option_map};
ghost use Rattle.std.specs.String.{string_bytes};
ghost use Rattle.mk_head.specs.Types.{field_value};
ghost use Rattle.mk_tree.specs.Sections.{Placed};
ghost use Rattle.mk_tree.specs.Tree.{field_lines};
ghost use Rattle.mk_view.specs.Described.{IsDescribed, IsDisposition};
ghost use Rattle.mk_view.specs.FileNames.{disposed_name, raw_name as raw_name_of};
ghost use Rattle.mk_view.specs.TextNames.{disposed_text, text_in as text_in_form, text_name as text_of_section};

use crate::text_names::NameForm;
use crate::typing::media_type;
use mk_head::{ContentType, content_type};
use mk_param::text_of;
use mk_tree::Section;
use std::alloc::{AllocError, Global};

/// What a Content-Disposition field says (RFC 2183, 2).
#[derive(Drop)]
pub struct Disposition {
    /// The value of the field, without the endings of its lines.
    pub value: Vec<u8>,
    /// The parameters in it.
    pub parameters: ContentType,
}

/// What the header of a section says of its content.
#[derive(Drop)]
pub struct Described {
    /// The content type; without a Content-Type field that of the section's place (RFC 2046, 5.1.5).
    pub media: ContentType,
    pub disposition: Option<Disposition>,
}

impl Described {
    /// Reads what the header of a section says.
    pub fn read(alloc: Global, section: &Section<'_>) -> Result<Described, AllocError>
        ensures { IfOk result (λ described. IsDescribed described section.now) }
    {
        let media = media_type(alloc, section)?;
        let disposition = read_disposition(alloc, section)?;
        Ok(Described { media, disposition })
    }

    /// The name that the fields say, as it stands there: the parameter `filename` of Content-Disposition, else `name` of
    /// Content-Type (RFC 2183, 2.3; RFC 2045, 5.1).
    pub fn raw_name(&self) -> Option<&[u8]>
        ensures { (p : Placed) → IsDescribed self.now p → option_map (λ name. name.now) result ≡ raw_name_of p }
    {
        match self.disposed_name() {
            Some(name) => Some(name),
            None => self.media.param(b"name"),
        }
    }

    // The name that the disposition says (RFC 2183, 2.3).
    fn disposed_name(&self) -> Option<&[u8]>
        ensures { (value : Option (List ℕ)) → IsDisposition self.now.disposition value → option_map (λ name. name.now) result ≡ disposed_name value }
    {
        match &self.disposition {
            Some(disposition) => disposition.parameters.param(b"filename"),
            None => None,
        }
    }

    /// The text that the fields say as the name: the first that can be read of what the disposition says for `filename`, and
    /// what the type says for `name` (RFC 2183, 2.3; RFC 2045, 5.1; RFC 2231).
    pub fn text_name(&self, alloc: Global) -> Result<Option<String>, AllocError>
        ensures { IfOk result (λ text. (p : Placed) → IsDescribed self.now p → option_map string_bytes text ≡ text_of_section p) }
    {
        match self.disposed_text(alloc)? {
            Some(text) => Ok(Some(text)),
            None => text_of(alloc, &self.media, b"name"),
        }
    }

    // The text that the disposition says.
    fn disposed_text(&self, alloc: Global) -> Result<Option<String>, AllocError>
        ensures { IfOk result (λ text. (value : Option (List ℕ)) → IsDisposition self.now.disposition value → option_map string_bytes text ≡ disposed_text value) }
    {
        match &self.disposition {
            Some(disposition) => text_of(alloc, &disposition.parameters, b"filename"),
            None => Ok(None),
        }
    }

    /// The text that counts in a form of names.
    pub(crate) fn text_in(
        &self,
        alloc: Global,
        form: NameForm,
    ) -> Result<Option<String>, AllocError>
        ensures { IfOk result (λ text. (p : Placed) → IsDescribed self.now p → option_map string_bytes text ≡ text_in_form form p) }
    {
        match form {
            NameForm::Plain => Ok(None),
            NameForm::Utf8 => self.text_name(alloc),
        }
    }
}

// What the Content-Disposition of a section says.
fn read_disposition(alloc: Global, section: &Section<'_>) -> Result<Option<Disposition>, AllocError>
    ensures { IfOk result (λ found. IsDisposition found (field_value (codes "Content-Disposition") (field_lines section.now.entity))) }
{
    match section.value(alloc, b"Content-Disposition")? {
        Some(value) => {
            let parameters = content_type(alloc, &value)?;
            Ok(Some(Disposition { value, parameters }))
        }
        None => Ok(None),
    }
}
