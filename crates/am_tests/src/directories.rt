use am_directory::directory::Directory;
use am_service_defs::applied::Applied;
use std::test::*;

#[test]
fn a_257th_key_is_one_too_many(rt: HostRuntime) -> Result<(), Fail> {
    let mut directory = Directory::new(rt.alloc());
    for key in 0..=255u8 {
        let put = directory.apply(1, &[1, 1, key, 0])?;
        assert!(rt; matches!(put, Applied::Put));
    }
    let other = directory.apply(2, &[1, 2, 0, 0, 0])?;
    assert!(rt; matches!(other, Applied::Full));
    let again = directory.apply(3, &[1, 1, 9, 0])?;
    assert!(rt; matches!(again, Applied::Replaced));
    assert!(rt; directory.len() == 256);
    Ok(())
}
