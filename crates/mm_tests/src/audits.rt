//! A test of the audit that keeps a set of segments for each group.

use mm_audit::{Apart, Entries, audit};
use mm_image::read;
use std::test::Fail;

/// An image of one slot that runs in page 0x100, of integer zeros, and has no other pointer.
fn alone(rt: &HostRuntime) -> Result<Vec<u8>, Fail> {
    let mut bytes = Vec::from_slice(rt.alloc(), b"MMI1\x00\x01\x00\x01\x00\x01\x00\x01")?;
    bytes.extend_from_slice(&[0; 4])?;
    bytes.extend_from_slice(&[0, 0, 0xff, 0])?;
    bytes.extend_from_slice(&0x3300_0000_0010_0000_u64.to_be_bytes())?;
    bytes.extend_from_slice(&[0; 130])?;
    bytes.extend_from_slice(&0x100_u64.to_be_bytes())?;
    bytes.extend_from_slice(&[0; 64])?;
    bytes.extend_from_slice(&[0xff; 64])?;
    bytes.extend_from_slice(&[0; 4096])?;
    Ok(bytes)
}

// The audit has a set for each group, and answers by them.
#[test]
fn an_audit_of_one_group(rt: HostRuntime) -> Result<(), Fail> {
    let bytes = alone(&rt)?;
    let img = read(rt.alloc(), &bytes).map_err(|_| "an image")?;
    let reach = audit(rt.alloc(), &img, &Entries::All).map_err(|_| "memory")?;
    assert_eq!(rt; reach.touch_set(0).items(), [(0x10_0000, 12)].as_slice());
    assert_eq!(rt; reach.write_set(0).items().len(), 0);
    assert_eq!(rt; reach.touch_set(1).items().len(), 0);
    assert_eq!(rt; reach.can_touch(0, 0x10_0ff8), true);
    assert_eq!(rt; reach.can_touch(0, 0x10_1000), false);
    assert_eq!(rt; reach.can_write(0, 0x10_0000), false);
    assert_eq!(rt; reach.privileged(0), false);
    assert!(rt; matches!(reach.apart(&[0]), Apart::Yes));
    Ok(())
}
