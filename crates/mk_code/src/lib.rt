//! Transfer encodings and encoded words of Internet messages (RFC 2045, 6.7 and 6.8; RFC 2047).
//!
//! Only `decode`, `decode_in`, `decoded_size` and `Piece::decode` refuse; the other calls fail only when memory runs out.
//!
//! ```
//! let text = qp_encode(alloc, b"caf\xc3\xa9 = 5\n", Ending::Lf)?;
//! assert_eq!(rt; text.as_slice(), b"caf=C3=A9 =3D 5\n".as_slice());
//! let content = decode(alloc, Encoding::Qp, &text)?;
//! assert_eq!(rt; content.as_slice(), b"caf\xc3\xa9 = 5\n".as_slice());
//! let value = words_decode(alloc, b"=?iso-8859-1?Q?caf=E9?= au lait")?;
//! assert_eq!(rt; value.as_slice(), b"caf\xc3\xa9 au lait".as_slice());
//! ```
//!
//! The example is run by `a_content_and_its_encoding` in `mk_text_tests/src/examples.rt`.
//!
//! Tests: `mk_text_tests/src/decoding.rt`, `mk_text_tests/src/codes.rt`, `mk_text_tests/src/words.rt`,
//! `mk_text_tests/src/rooms.rt`, `mk_text_tests/src/sizes.rt`, `mk_text_tests/src/piecewise.rt`; `mk_text_tests/src/memory.rt`
//! where memory is refused.
#![tactic(auto)]

mod base64_fronts;
mod base64_text;
mod charsets;
mod decoding;
mod iso_tables;
mod lanes;
pub mod laws;
mod one_word;
mod other_tables;
mod piecewise;
mod qp_decoding;
mod qp_encoding;
mod sizes;
mod words_decoding;
mod words_encoding;

pub use base64_fronts::decode_front;
pub use base64_text::{b64_encode, push_b64};
pub use charsets::{in_utf8, is_in_charset};
pub use decoding::{CodeError, decode, decode_in};
pub use mk_head::Encoding;
pub use piecewise::Piece;
pub use qp_encoding::{push_qp, qp_encode};
pub use sizes::decoded_size;
pub use words_decoding::{text_decode, words_decode};
pub use words_encoding::words_encode;
