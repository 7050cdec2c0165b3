use allocator::{AllocationTracker, Allocator, Layout};
use std::test::Fail;
use sub_allocator::SubAllocator;

// The card `5 48`, `wdpvp`, `6 8 0 3 0`: 6 and 12 bytes are live at most, two spans, alignment 8 at most.
#[test]
fn peaks(rt: HostRuntime) -> Result<(), Fail> {
    let mut bytes = [0u8; 48];
    let mut tracker = AllocationTracker::new(SubAllocator::new(&mut bytes, 4112));
    let word = Layout::from_size_align(6, 4)?;
    let double = Layout::from_size_align(8, 8)?;
    let positions = Layout::from_size_align(12, 4)?;
    let large = Layout::from_size_align(4096, 4096)?;
    let _ = tracker.push_alloc(word)?;
    let at = tracker.push_alloc(double)?;
    tracker.pop_alloc(at, double)?;
    let at = tracker.push_alloc(positions)?;
    // refused calls do not count
    assert!(rt; tracker.push_alloc(large).is_err());
    assert!(rt; tracker.pop_alloc(5000, large).is_err());
    tracker.pop_alloc(at, positions)?;
    let (stats, _) = tracker.into_stats();
    assert_eq!(rt; stats.max_bytes_allocated, 18);
    assert_eq!(rt; stats.max_allocations, 2);
    assert_eq!(rt; stats.max_alignment, 8);
    assert_eq!(rt; stats.min_arena_capacity_max_error(), 14);
    assert_eq!(rt; stats.min_arena_capacity(), 32);
    Ok(())
}

#[test]
fn from(rt: HostRuntime) {
    let tracker: AllocationTracker<SubAllocator> = SubAllocator::empty().into();
    let (stats, _) = tracker.into_stats();
    assert_eq!(rt; stats.max_alignment, 1);
    assert_eq!(rt; stats.min_arena_capacity(), 0);
}
