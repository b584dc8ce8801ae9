//! Transfer encodings by their names (RFC 2045, 6.1).
ghost use Rattle.std.specs.Prelude.{◌≡◌};
ghost use Rattle.std.specs.Str.{bytes_eq};
ghost use Rattle.mk_head.specs.Encodings.{encoding_of};
ghost use Rattle.mk_head.specs.Values.{Plain, lowered, stripped, uncommented};
ghost use Rattle.mk_head.specs.Matching.{IsPlainName};

use crate::encodings::Encoding;
use crate::scanning::Scan;
use mk_line::is_blank;

/// The encoding that the value of a field says, without its comments and without regard to case.
pub fn encoding(value: &[u8]) -> Encoding
    ensures { result ≡ encoding_of value.now }
{
    if is_named(value, b"")
        || is_named(value, b"7bit")
        || is_named(value, b"8bit")
        || is_named(value, b"binary")
    {
        Encoding::Identity
    } else if is_named(value, b"quoted-printable") {
        Encoding::Qp
    } else if is_named(value, b"base64") {
        Encoding::Base64
    } else {
        Encoding::Other
    }
}

// Whether a value without its comments and the blanks at its ends is a name, without regard to case.
fn is_named(value: &[u8], name: &[u8]) -> bool
    requires { IsPlainName name.now }
    ensures { result ≡ bytes_eq (lowered (stripped (uncommented Plain value.now))) name.now }
{
    let mut scan = Scan::Plain;
    let mut count = 0;
    for byte in value {
        if scan.keeps(*byte) {
            if is_blank(*byte) {
                if count > 0 && count < name.len() {
                    return false;
                }
            } else if count < name.len() && byte.to_ascii_lowercase() == name[count] {
                count += 1;
            } else {
                return false;
            }
        }
        scan = scan.next(*byte);
    }
    count == name.len()
}
