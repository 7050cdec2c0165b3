use allocator::Allocator;
use session::Session;
use std::test::Fail;
use sub_allocator::SubAllocator;

#[test]
fn order_of_refusals(rt: HostRuntime) -> Result<(), Fail> {
    let mut bytes = [0u8; 64];
    let mut session = Session::open(SubAllocator::new(&mut bytes, 0));
    if let Ok(()) = session.pop_newest() {
        return Err(Fail::new("nothing was live"));
    }
    let table: [(usize, usize, u32); 4] = [(0, 3, 1), (1, 3, 2), (65, 1, 3), (64, 4096, 0)];
    for (size, align, number) in table {
        match session.push(size, align) {
            Ok((grant, at)) => {
                assert_eq!(rt; number, 0);
                assert_eq!(rt; grant.number(), 1);
                assert_eq!(rt; at, 0);
            }
            Err(fault) => assert_eq!(rt; fault.number(), number),
        }
    }
    Ok(())
}

#[test]
fn grants(rt: HostRuntime) -> Result<(), Fail> {
    let mut bytes = [9u8; 64];
    let mut session = Session::open(SubAllocator::new(&mut bytes, 0));
    let Ok((first, _)) = session.push(4, 1) else {
        return Err(Fail::new("4 bytes fit"));
    };
    let Ok((second, at)) = session.push(8, 8) else {
        return Err(Fail::new("8 bytes fit"));
    };
    assert_eq!(rt; second.number(), 2);
    assert_eq!(rt; at, 8);
    assert!(rt; session.store(&second, 7, 1).is_ok());
    assert_eq!(rt; session.load(&second, 7).ok(), Some(1));
    assert_eq!(rt; session.load(&second, 6).ok(), Some(9));
    if let Err(fault) = session.load(&second, 8) {
        assert_eq!(rt; fault.number(), 7);
    }
    let Err((first, fault)) = session.pop(first) else {
        return Err(Fail::new("the first is not the newest"));
    };
    assert_eq!(rt; fault.number(), 4);
    assert!(rt; session.pop(second).is_ok());
    assert!(rt; session.pop_newest().is_ok());
    match session.pop(first) {
        Ok(()) => Err(Fail::new("the first is not live")),
        Err((_, fault)) => {
            assert_eq!(rt; fault.number(), 5);
            Ok(())
        },
    }
}

#[test]
fn depth(rt: HostRuntime) -> Result<(), Fail> {
    let mut bytes = [0u8; 128];
    let mut session = Session::open(SubAllocator::new(&mut bytes, 0));
    for _ in 0..64 {
        assert!(rt; session.push(1, 1).is_ok());
    }
    match session.push(1, 1) {
        Ok(_) => Err(Fail::new("64 are live")),
        Err(fault) => {
            assert_eq!(rt; fault.number(), 6);
            Ok(())
        },
    }
}
