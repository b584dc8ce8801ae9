//! Names of fields by how they begin.

ghost use Rattle.std.specs.Prelude.{◌≡◌, map};
ghost use Rattle.std.specs.List.{list_all};
ghost use Rattle.mk_line.specs.Kinds.{is_name as is_one_name};
ghost use Rattle.mk_mail.specs.LetterViews.{pattern_of};
ghost use Rattle.mk_mail.specs.Letters.{is_dropped as is_dropped_name, is_meant, is_structural as is_structural_name, same_name};

use mk_line::is_name;

/// The field that says the MIME version.
const VERSION: &[u8; 12] = b"MIME-Version";

/// What the names of the fields begin with that describe a content.
const CONTENT: &[u8; 8] = b"Content-";

/// Names of fields: one, or all that begin with a text. ASCII case doesn't count.
#[derive(Debug, Drop)]
pub struct NamePattern {
    /// The name, or what names begin with.
    pub text: Vec<u8>,
    /// Whether it means all names that begin with the text.
    pub is_front: bool,
}

impl NamePattern {
    // Whether its text is a name.
    fn ok(&self) -> bool
        ensures { result ≡ is_one_name self.now.text.items }
    {
        is_name(&self.text)
    }

    // Whether it means a name.
    fn means(&self, own: &[u8]) -> bool
        ensures { result ≡ is_meant (pattern_of self.now) own.now }
    {
        means(&self.text, self.is_front, own)
    }
}

// Whether a text means a name: as the whole of it, or as what it begins with.
fn means(text: &[u8], is_front: bool, own: &[u8]) -> bool
    ensures { result ≡ is_meant (record { text = text.now; is_front = is_front }) own.now }
{
    if is_front && own.len() > text.len() {
        is_same(text, &own[..text.len()])
    } else {
        is_same(text, own)
    }
}

/// Which fields go by their names: those that patterns mean, and where there are names to keep, all others.
#[derive(Clone, Copy, Debug)]
pub(crate) struct Removal<'a> {
    /// The names that go.
    pub drops: &'a [NamePattern],
    /// The names that stay, if there are any.
    pub keeps: &'a [NamePattern],
    /// Whether then the fields go, too, that say the structure of a message.
    pub only: bool,
}

impl Removal<'_> {
    ghost use Rattle.std.specs.Prelude.{◌≡◌, ◌==◌, ◌&&◌, length};
    ghost use Rattle.mk_mail.specs.LetterWork.{removal_by};
    ghost use Rattle.mk_mail.specs.Letters.{goes as goes_by, is_left_out};

    /// Whether it is known that no field goes.
    pub(crate) fn is_nothing(&self) -> bool
        ensures { result ≡ ((length self.now.drops.now == 0) && (length self.now.keeps.now == 0)) }
    {
        self.drops.is_empty() && self.keeps.is_empty()
    }

    /// Whether the fields of a name go.
    pub(crate) fn goes(&self, own: &[u8]) -> bool
        ensures { result ≡ goes_by (removal_by self.now) own.now }
    {
        is_dropped(self.drops, own) || self.leaves_out(own)
    }

    // Whether a name isn't kept, where some are.
    fn leaves_out(&self, own: &[u8]) -> bool
        ensures { result ≡ is_left_out (removal_by self.now) own.now }
    {
        !self.keeps.is_empty() && !is_dropped(self.keeps, own) && (self.only || !is_structural(own))
    }
}

// Whether fields of a name say the structure of a message (RFC 2045, 4 and 9).
fn is_structural(own: &[u8]) -> bool
    ensures { result ≡ is_structural_name own.now }
{
    means(VERSION, false, own) || means(CONTENT, true, own)
}

/// Whether one of some patterns means a name.
pub(crate) fn is_dropped(drops: &[NamePattern], own: &[u8]) -> bool
    ensures { result ≡ is_dropped_name (map pattern_of drops.now) own.now }
{
    for pattern in drops {
        if pattern.means(own) {
            return true;
        }
    }
    false
}

/// Whether the text of each pattern is a name.
pub(crate) fn are_patterns(drops: &[NamePattern]) -> bool
    ensures { result ≡ list_all (λ p. is_one_name p.text) (map pattern_of drops.now) }
{
    for pattern in drops {
        if !pattern.ok() {
            return false;
        }
    }
    true
}

/// Whether two names are the same, without regard to ASCII case.
pub(crate) fn is_same(name: &[u8], own: &[u8]) -> bool
    ensures { result ≡ same_name name.now own.now }
{
    own.eq_ignore_ascii_case(name)
}
