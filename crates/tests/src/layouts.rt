use allocator::{Cause, Fault, Layout};

// (size, alignment, the number of the refusal or 0)
const TABLE: [(usize, usize, u32); 14] = [
    (1, 1, 0),
    (16_777_216, 4096, 0),
    (16_777_217, 1, 1),
    (0, 1, 1),
    (0, 3, 1),
    (usize::MAX, 0, 1),
    (1, 0, 2),
    (1, 3, 2),
    (1, 6, 2),
    (1, 12, 2),
    (1, 4095, 2),
    (1, 8192, 2),
    (1, usize::MAX, 2),
    (3, 2048, 0),
];

#[test]
fn limits(rt: HostRuntime) {
    for (size, align, number) in TABLE {
        match Layout::from_size_align(size, align) {
            Ok(layout) => {
                assert_eq!(rt; number, 0);
                assert_eq!(rt; layout.size(), size);
                assert_eq!(rt; layout.align(), align);
            }
            Err(fault) => assert_eq!(rt; fault.number(), number),
        }
    }
}

#[test]
fn offsets(rt: HostRuntime) {
    let table: [(usize, usize, usize); 6] = [
        (0, 8, 0),
        (1, 8, 7),
        (7, 8, 1),
        (8, 8, 0),
        (usize::MAX, 4096, 1),
        (5, 1, 0),
    ];
    for (at, align, offset) in table {
        if let Ok(layout) = Layout::from_size_align(1, align) {
            assert_eq!(rt; layout.align_offset(at), offset);
        }
    }
}

#[test]
fn numbers(rt: HostRuntime) {
    assert_eq!(rt; Fault::Size.number(), 1);
    assert_eq!(rt; Fault::Alignment.number(), 2);
    assert_eq!(rt; Fault::DoesNotFit(Cause::NoBlock).number(), 3);
    assert_eq!(rt; Fault::Address.number(), 13);
}
