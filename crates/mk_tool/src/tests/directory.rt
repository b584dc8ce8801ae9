//! A folder of the system: it is made at the first file, and no link in it is followed.

ghost use Rattle.std.specs.Prelude.{◌≡◌, true};
ghost use Rattle.mk_view.specs.GivenNames.{is_safe};

use super::holds;
use mk_run::{Content, Folder, Stop};
use mk_system::Directory;
use std::fs;
use std::os::unix::fs::symlink;
use std::test::Fail;

const OUTER: &str = "mimetool_unpack_test";

const FOLDER: &str = "mimetool_unpack_test/a/b";

const ELSEWHERE: &str = "mimetool_unpack_test/elsewhere";

const LINK: &str = "mimetool_unpack_test/a/b/link";

// Puts bytes under a name.
fn put(
    rt: &HostRuntime,
    dir: &mut Directory<'_, '_, HostRuntime>,
    name: &[u8],
    bytes: &[u8],
    over: bool,
) -> Result<bool, Stop>
    requires { is_safe name.now ≡ true }
{
    dir.put(name, &mut Content::of(rt.alloc(), bytes), over)
}

#[test]
fn no_link_is_followed(rt: HostRuntime) -> Result<(), Fail> {
    let _ = fs::remove_dir_all(&rt, OUTER);
    let mut dir = Directory::new(&rt, FOLDER);
    assert!(rt; !fs::exists(&rt, OUTER)?);
    assert_eq!(rt; put(&rt, &mut dir, b"n", b"1", false), Ok(true));
    assert_eq!(rt; put(&rt, &mut dir, b"n", b"2", false), Ok(false));
    fs::write(&rt, ELSEWHERE, "3")?;
    symlink(&rt, "../../elsewhere", LINK)?;
    assert_eq!(rt; put(&rt, &mut dir, b"link", b"4", false), Ok(false));
    assert_eq!(rt; put(&rt, &mut dir, b"link", b"5", true), Ok(true));
    holds(&rt, ELSEWHERE, "3")?;
    holds(&rt, LINK, "5")?;
    fs::remove_dir_all(&rt, OUTER)?;
    Ok(())
}

#[test]
fn what_is_no_folder_takes_no_file(rt: HostRuntime) -> Result<(), Fail> {
    let mut nowhere = Directory::new(&rt, "");
    assert!(rt; put(&rt, &mut nowhere, b"n", b"1", true).is_err());
    assert_eq!(rt; nowhere.faults(), 1);
    Ok(())
}
