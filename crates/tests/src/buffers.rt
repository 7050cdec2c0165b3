use allocator::{Allocator, Cause, Fault, Layout};
use std::test::Fail;
use sub_allocator::SubAllocator;

const FULL: Fault = Fault::DoesNotFit(Cause::FixedBuffer);

#[test]
fn fifteen_bytes_at_one(rt: HostRuntime) -> Result<(), Fail> {
    let word = Layout::from_size_align(8, 8)?;
    let mut bytes = [0u8; 15];
    assert_eq!(rt;
        SubAllocator::new(&mut bytes[0..15], 1).push_alloc(word),
        Ok(8)
    );
    assert_eq!(rt;
        SubAllocator::new(&mut bytes[0..14], 1).push_alloc(word),
        Err(FULL)
    );
    Ok(())
}

#[test]
fn pop_keeps_the_padding(rt: HostRuntime) -> Result<(), Fail> {
    let byte = Layout::from_size_align(1, 1)?;
    let word = Layout::from_size_align(8, 8)?;
    let mut bytes = [0u8; 16];
    let mut memory = SubAllocator::new(&mut bytes, 0);
    assert_eq!(rt; memory.push_alloc(byte), Ok(0));
    assert_eq!(rt; memory.push_alloc(word), Ok(8));
    assert_eq!(rt; memory.push_alloc(byte), Err(FULL));
    assert_eq!(rt; memory.pop_alloc(8, word), Ok(()));
    assert_eq!(rt; memory.push_alloc(byte), Ok(8));
    // an address that is not taken
    assert_eq!(rt; memory.pop_alloc(9, byte), Err(Fault::Address));
    assert_eq!(rt; memory.load(9), Err(Fault::Address));
    assert_eq!(rt; memory.store(16, 1), Err(Fault::Address));
    Ok(())
}

#[test]
fn bytes_stay(rt: HostRuntime) -> Result<(), Fail> {
    let pair = Layout::from_size_align(2, 1)?;
    let mut bytes = [9u8; 4];
    {
        let mut memory = SubAllocator::new(&mut bytes, 140_737_488_355_328 + 100);
        assert_eq!(rt; memory.push_alloc(pair), Ok(100));
        // a byte that was not stored reads as the buffer had it
        assert_eq!(rt; memory.load(101), Ok(9));
        assert_eq!(rt; memory.store(101, 7), Ok(()));
        assert_eq!(rt; memory.load(100), Ok(9));
        assert_eq!(rt; memory.load(101), Ok(7));
    }
    assert!(rt; bytes == [9, 7, 9, 9]);
    Ok(())
}

#[test]
fn none(rt: HostRuntime) -> Result<(), Fail> {
    let byte = Layout::from_size_align(1, 1)?;
    let mut memory = SubAllocator::empty();
    assert_eq!(rt; memory.push_alloc(byte), Err(FULL));
    assert_eq!(rt; memory.load(0), Err(Fault::Address));
    Ok(())
}
