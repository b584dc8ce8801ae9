//! The example at the root of mk_tree. Expected values are from RFC 2046, 5.1.1.
use mk_tree::{Doc, Kind};
use std::test::Fail;

#[test]
fn a_multipart_has_parts(rt: HostRuntime) -> Result<(), Fail> {
    let alloc = rt.alloc();
    let text = b"Content-Type: multipart/mixed; boundary=b\n\n--b\n\none\n--b\n\ntwo\n--b--\n";
    let text = Vec::from_slice(alloc, text)?;
    let doc = Doc::read(alloc, text).map_err(|(_, error)| error)?;
    assert_eq!(rt; doc.root().kind(), Kind::Multi);
    assert_eq!(rt; doc.root().parts(), 2);
    let second = doc.section(&[1, 2]).expect(&rt, "a section");
    assert_eq!(rt; second.kind(), Kind::Leaf);
    assert_eq!(rt; second.content(), b"two".as_slice());
    Ok(())
}
