//! Cutting bytes in two at one byte.
ghost use Rattle.std.specs.Prelude.{◌≡◌, ◌∷◌, ◌++◌, false, Some, None, IfNone, IfSome, MatchOption};
ghost use Rattle.mk_line.specs.Parting.{before, following, has_byte};

use memchr::memchr;

/// What stands before the first byte of a kind, and what follows it; `None` where no such byte is there.
pub fn split_at_first(text: &[u8], mark: u8) -> Option<(&[u8], &[u8])>
    ensures none { IfNone result (following mark text.now ≡ None) }
    ensures some { IfSome result (λ p. (p.0.now ≡ before mark text.now) × (following mark text.now ≡ Some p.1.now)) }

    // The same by the bytes of both.
    ensures parts { MatchOption result (has_byte mark text.now ≡ false) (λ p. text.now ≡ p.0.now ++ mark ∷ p.1.now) }
    ensures first { MatchOption result (has_byte mark text.now ≡ false) (λ p. has_byte mark p.0.now ≡ false) }
{
    match memchr(mark, text) {
        Some(place) => Some((&text[..place], &text[place + 1..])),
        None => None,
    }
}
