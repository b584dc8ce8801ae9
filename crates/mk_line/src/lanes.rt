//! Classes of bytes, tested sixteen at a time and counted sixty-four at a time: which byte ends a run can't be foreseen, so a
//! test byte by byte waits for each.
//!
//! A class says how it is tested, and one loop finds its runs, and one counts its bytes. The classes are those of names and of
//! line feeds here, and those of contents in mk_code.
ghost use Rattle.std.specs.Prelude.{◌≡◌, ◌==◌, ◌+◌, ◌≤◌, ℕ, Bool, if◌then◌else◌, length, take, drop, count_by};
ghost use Rattle.std.specs.Int.{w64, trailing_zeros};
ghost use Rattle.std.specs.List.{prefix_len};

/// How many bytes are tested at once.
pub const LANES: usize = 16;

/// How many bytes are counted at once.
pub const COUNTED: usize = 64;

/// A class of bytes.
pub trait ByteClass {
    ghost members: { ℕ → Bool };

    /// Whether the byte is one of the class.
    fn has(byte: u8) -> bool
        ensures { result ≡ members byte };
}

/// A class whose runs are found sixteen bytes at a time.
pub trait Runs: ByteClass {
    /// How many bytes of the class come first of the sixteen bytes at a place, an offset in bytes from 0.
    fn run_at(text: &[u8], at: usize) -> usize
        requires { at + LANES ≤ length text.now }
        ensures { result ≡ prefix_len Self.members (take LANES (drop at text.now)) };
}

/// A class whose bytes are counted sixty-four at a time.
pub trait Counts: ByteClass {
    /// How many of the sixty-four bytes at a place, an offset in bytes from 0, are of the class.
    fn count_at(text: &[u8], at: usize) -> usize
        requires { at + COUNTED ≤ length text.now }
        ensures count { result ≡ count_by Self.members (take COUNTED (drop at text.now)) }
        ensures few { result ≤ COUNTED };
}

/// How many lanes come before the first that is marked in a mask of as many lanes: all, where none is.
#[inline(always)]
pub fn first_set(mask: u64, lanes: usize) -> usize
    ensures { result ≡ (if mask == 0 then lanes else trailing_zeros w64 mask) }
{
    if mask == 0 {
        lanes
    } else {
        mask.trailing_zeros() as usize
    }
}

/// How many bytes of the class stand at the start of a text.
#[inline]
pub fn run_of<C: Runs>(text: &[u8]) -> usize
    ensures front { result ≡ prefix_len C.members text.now }
    ensures within { result ≤ length text.now }
{
    if text.len() < LANES {
        return short_run::<C>(text);
    }
    let mut size = 0;
    'each: while LANES < text.len() - size {
        let run = C::run_at(text, size);
        if run < LANES {
            return size + run;
        }
        size += LANES;
    }
    // The last block goes back over bytes that were tested.
    let last = text.len() - LANES;
    last + C::run_at(text, last)
}

// The same, one by one.
#[inline]
fn short_run<C: ByteClass>(text: &[u8]) -> usize
    ensures front { result ≡ prefix_len C.members text.now }
    ensures within { result ≤ length text.now }
{
    text.iter().take_while(|byte| C::has(**byte)).count()
}

/// How many bytes of a text are of the class.
pub fn count_of<C: Counts>(text: &[u8]) -> usize
    ensures count { result ≡ count_by C.members text.now }
    ensures few { result ≤ length text.now }
{
    let mut count = 0;
    let mut place = 0;
    'each: while COUNTED <= text.len() - place {
        count += C::count_at(text, place);
        place += COUNTED;
    }
    count + short_count::<C>(&text[place..])
}

// The same, one by one.
fn short_count<C: ByteClass>(text: &[u8]) -> usize
    ensures count { result ≡ count_by C.members text.now }
    ensures few { result ≤ length text.now }
{
    text.iter().filter(|byte| C::has(**byte)).count()
}
