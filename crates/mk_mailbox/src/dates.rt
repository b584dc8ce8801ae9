//! Dates at the end of From-lines, as asctime prints them: `Www Mmm DD hh:mm:ss yyyy` (RFC 4155, appendix A).
ghost use Rattle.std.specs.Prelude.{◌≡◌, ◌≤◌, ◌<◌, ◌+◌, length};
ghost use Rattle.std.specs.Char.{is_ascii_alphabetic};
ghost use Rattle.std.specs.List.{list_all};
ghost use Rattle.mk_mailbox.specs.Dates.{are_four_digits as are_four, begins_below as below, begins_with_day as day, begins_with_month as month, begins_with_time as time, begins_with_weekday as weekday, ends_with_date as dated, is_date as date, is_offset as offset, is_year as year, is_zone as zone};
ghost use Rattle.mk_mailbox.specs.inner.Parts.{are_digits as digits, are_letters as letters, begins_with_moment as moment};

use mk_line::{is_blank, split_at_first};

const SPACE: u8 = b' ';

const COLON: u8 = b':';

/// The length in bytes of a date without a zone.
const SHORTEST_DATE: usize = 24;

/// Where the parts of a date begin, in bytes from its start.
const MONTH: usize = 4;

const DAY: usize = 8;

const TIME: usize = 11;

const YEAR: usize = 20;

/// Where the minute and the second of a time begin.
const MINUTE: usize = 3;

const SECOND: usize = 6;

/// Whether a date stands at the end, after a blank.
pub(crate) fn ends_with_date(content: &[u8]) -> bool
    ensures { result ≡ dated content.now }
{
    let mut rest = content;
    'each: while let [byte, following @ ..] = rest {
        if is_blank(*byte) && is_date(following) {
            return true;
        }
        rest = following;
    }
    false
}

// Whether the bytes are a date, with a zone or without one.
fn is_date(text: &[u8]) -> bool
    ensures { result ≡ date text.now }
{
    if text.len() < SHORTEST_DATE {
        return false;
    }
    begins_with_moment(text) && is_year(&text[YEAR..])
}

// Whether a day and its time come first, and a space.
fn begins_with_moment(text: &[u8]) -> bool
    requires { 24 ≤ length text.now }
    ensures { result ≡ moment text.now }
{
    begins_with_weekday(text)
        && begins_with_month(&text[MONTH..])
        && begins_with_day(&text[DAY..])
        && begins_with_time(&text[TIME..])
}

fn begins_with_weekday(text: &[u8]) -> bool
    ensures { result ≡ weekday text.now }
{
    text.starts_with(b"Mon ")
        || text.starts_with(b"Tue ")
        || text.starts_with(b"Wed ")
        || text.starts_with(b"Thu ")
        || text.starts_with(b"Fri ")
        || text.starts_with(b"Sat ")
        || text.starts_with(b"Sun ")
}

fn begins_with_month(text: &[u8]) -> bool
    ensures { result ≡ month text.now }
{
    text.starts_with(b"Jan ")
        || text.starts_with(b"Feb ")
        || text.starts_with(b"Mar ")
        || text.starts_with(b"Apr ")
        || text.starts_with(b"May ")
        || text.starts_with(b"Jun ")
        || text.starts_with(b"Jul ")
        || text.starts_with(b"Aug ")
        || text.starts_with(b"Sep ")
        || text.starts_with(b"Oct ")
        || text.starts_with(b"Nov ")
        || text.starts_with(b"Dec ")
}

// Whether the day of a month comes first, and a space.
fn begins_with_day(text: &[u8]) -> bool
    ensures { result ≡ day text.now }
{
    match text {
        [tens, ones, next, ..] => {
            (*tens == SPACE || tens.is_ascii_digit()) && ones.is_ascii_digit() && *next == SPACE
        }
        _ => false,
    }
}

// Whether a time comes first, and a space. A minute may have a leap second.
fn begins_with_time(text: &[u8]) -> bool
    requires { 9 ≤ length text.now }
    ensures { result ≡ time text.now }
{
    begins_below(text, 24, COLON)
        && begins_below(&text[MINUTE..], 60, COLON)
        && begins_below(&text[SECOND..], 61, SPACE)
}

// Whether a number below a limit comes first, of two digits, and this byte.
fn begins_below(text: &[u8], limit: u8, last: u8) -> bool
    ensures { result ≡ below limit last text.now }
{
    match text {
        [tens, ones, next, ..] => {
            are_digits(*tens, *ones)
                && (*tens - b'0') * 10 + (*ones - b'0') < limit
                && *next == last
        }
        _ => false,
    }
}

// Whether the bytes are a year, with a zone before or after it or without one.
fn is_year(text: &[u8]) -> bool
    ensures { result ≡ year text.now }
{
    match split_at_first(text, SPACE) {
        Some((first, last)) => {
            are_four_digits(first) && is_zone(last) || is_zone(first) && are_four_digits(last)
        }
        None => are_four_digits(text),
    }
}

// Whether the bytes are letters, or an offset.
fn is_zone(text: &[u8]) -> bool
    ensures { result ≡ zone text.now }
{
    are_letters(text) || is_offset(text)
}

// Whether the bytes are one letter or more.
fn are_letters(text: &[u8]) -> bool
    ensures { result ≡ letters text.now }
{
    !text.is_empty() && are_alphabetic(text)
}

fn are_alphabetic(text: &[u8]) -> bool
    ensures { result ≡ list_all is_ascii_alphabetic text.now }
{
    text.iter().all(|byte| byte.is_ascii_alphabetic())
}

// Whether the bytes are a sign and four digits.
fn is_offset(text: &[u8]) -> bool
    ensures { result ≡ offset text.now }
{
    match text {
        [sign, digits @ ..] => (*sign == b'+' || *sign == b'-') && are_four_digits(digits),
        [] => false,
    }
}

fn are_four_digits(text: &[u8]) -> bool
    ensures { result ≡ are_four text.now }
{
    match text {
        [a, b, c, d] => are_digits(*a, *b) && are_digits(*c, *d),
        _ => false,
    }
}

fn are_digits(tens: u8, ones: u8) -> bool
    ensures { result ≡ digits tens ones }
{
    tens.is_ascii_digit() && ones.is_ascii_digit()
}
