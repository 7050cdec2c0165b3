use allocator::{Allocator, Cause, Fault, Layout};
use arena::Arena;
use region::Region;
use source::BlockSource;
use std::test::Fail;

fn region(rt: &HostRuntime, len: usize) -> Result<Region, Fail> {
    Ok(Region::new(vec![in rt.alloc(); 0u8; len]?))
}

#[test]
fn first_blocks(rt: HostRuntime) -> Result<(), Fail> {
    let table: [(usize, usize); 4] = [(0, 16), (1024, 2048), (2032, 2048), (2033, 4096)];
    for (cap, held) in table {
        let mut arena = Arena::new(region(&rt, 4096)?);
        assert_eq!(rt; arena.capacity(), 0);
        assert!(rt; arena.with_capacity(cap).is_ok());
        assert_eq!(rt; arena.held(), held);
        assert_eq!(rt; arena.capacity(), held - 16);
    }
    Ok(())
}

#[test]
fn openings(rt: HostRuntime) -> Result<(), Fail> {
    let mut arena = Arena::new(region(&rt, 2048)?);
    if let Err(fault) = arena.with_capacity(16_777_217) {
        assert_eq!(rt; fault.number(), 10);
    }
    if let Err(fault) = arena.with_capacity(2033) {
        assert_eq!(rt; fault.number(), 12);
    }
    assert_eq!(rt; arena.held(), 0);
    assert!(rt; arena.with_capacity(2032).is_ok());
    match arena.with_capacity(16_777_217) {
        Ok(()) => Err(Fail::new("opened twice")),
        Err(fault) => {
            assert_eq!(rt; fault.number(), 9);
            Ok(())
        },
    }
}

#[test]
fn growth(rt: HostRuntime) -> Result<(), Fail> {
    let mut arena = Arena::new(region(&rt, 49_152)?);
    assert!(rt; arena.with_capacity(1024).is_ok());
    let mut handle = arena.acquire();
    // the block of 4,096 bytes lies behind the one of 2,048, and its first 16 bytes are reserved
    assert_eq!(rt;
        handle.push_alloc(Layout::from_size_align(3000, 1)?),
        Ok(4096 + 2048 + 16)
    );
    assert_eq!(rt; handle.held(), 6144);
    let mut arena = handle.release();
    assert_eq!(rt; arena.growths(), 1);
    assert_eq!(rt; arena.capacity(), 4080);
    assert_eq!(rt; arena.shrink(), 4080);
    assert_eq!(rt; arena.capacity(), 4080);
    assert_eq!(rt; arena.held(), 4096);
    assert_eq!(rt; arena.growths(), 1);
    Ok(())
}

#[test]
fn refusals(rt: HostRuntime) -> Result<(), Fail> {
    let byte = Layout::from_size_align(1, 1)?;
    let largest = Layout::from_size_align(16_777_216, 4096)?;
    let mut handle = Arena::new(region(&rt, 64)?).acquire();
    assert_eq!(rt;
        handle.push_alloc(byte),
        Err(Fault::DoesNotFit(Cause::Unopened))
    );
    let mut arena = handle.release();
    assert!(rt; arena.with_capacity(16).is_ok());
    let mut handle = arena.acquire();
    assert_eq!(rt;
        handle.push_alloc(largest),
        Err(Fault::DoesNotFit(Cause::NoBlock))
    );
    assert_eq!(rt; handle.push_alloc(byte), Ok(4112));
    assert_eq!(rt; handle.store(4112, 5), Ok(()));
    assert_eq!(rt; handle.load(4112), Ok(5));
    // the reserved bytes are nobody's
    assert_eq!(rt; handle.load(4111), Err(Fault::Address));
    assert_eq!(rt; handle.pop_alloc(4113, byte), Err(Fault::Address));
    assert_eq!(rt; handle.pop_alloc(4112, byte), Ok(()));
    Ok(())
}
