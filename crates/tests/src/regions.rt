use region::Region;
use source::{BlockSource, SourceFault};
use std::test::Fail;

// A region of 160 bytes: addresses 4,096 to 4,255.
#[test]
fn lowest_that_is_free(rt: HostRuntime) -> Result<(), Fail> {
    let mut region = Region::new(vec![in rt.alloc(); 7u8; 160]?);
    assert_eq!(rt; region.take(16), Ok(4096));
    assert_eq!(rt; region.take(20), Ok(4112));
    // 4,132 is no multiple of 16 from the start
    assert_eq!(rt; region.take(16), Ok(4144));
    assert_eq!(rt; region.take(97), Err(SourceFault::NoBlock));
    assert_eq!(rt; region.take(96), Ok(4160));
    assert_eq!(rt; region.give(4112), Ok(()));
    assert_eq!(rt; region.give(4112), Err(SourceFault::Address));
    assert_eq!(rt; region.take(33), Err(SourceFault::NoBlock));
    assert_eq!(rt; region.take(32), Ok(4112));
    assert_eq!(rt; region.take(0), Err(SourceFault::BlockSize));
    assert_eq!(rt; region.take(67_108_865), Err(SourceFault::BlockSize));
    Ok(())
}

#[test]
fn bytes_of_blocks(rt: HostRuntime) -> Result<(), Fail> {
    let mut region = Region::new(vec![in rt.alloc(); 7u8; 64]?);
    assert_eq!(rt; region.take(8), Ok(4096));
    assert_eq!(rt; region.store(4103, 1), Ok(()));
    assert_eq!(rt; region.store(4104, 1), Err(SourceFault::Address));
    assert_eq!(rt; region.load(4103), Ok(1));
    assert_eq!(rt; region.load(4102), Ok(7));
    assert_eq!(rt; region.load(4095), Err(SourceFault::Address));
    let bytes = region.into_bytes();
    assert!(rt; bytes.len() == 64);
    assert_eq!(rt; bytes[7], 1);
    assert_eq!(rt; bytes[8], 7);
    Ok(())
}

#[test]
fn thirty_two_blocks(rt: HostRuntime) -> Result<(), Fail> {
    let mut region = Region::new(vec![in rt.alloc(); 0u8; 1024]?);
    for k in 0..32usize {
        assert_eq!(rt; region.take(1), Ok(4096 + 16 * k));
    }
    assert_eq!(rt; region.take(1), Err(SourceFault::NoBlock));
    Ok(())
}
