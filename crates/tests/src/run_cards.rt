use cards::{Blank, Card, Entry, Letter};
use std::test::Fail;

const WORD: Entry = Entry {
    letter: Letter::Word,
    size: 6,
};

const DOUBLE: Entry = Entry {
    letter: Letter::Double,
    size: 8,
};

const POP: Entry = Entry {
    letter: Letter::Pop,
    size: 0,
};

const POSITIONS: Entry = Entry {
    letter: Letter::Positions,
    size: 3,
};

fn read(rt: &HostRuntime, text: &[u8]) -> Result<Card, Fail> {
    let blank = Blank::new(rt.alloc())?;
    Ok(Card::read(blank, text)?)
}

#[test]
fn reads(rt: HostRuntime) -> Result<(), Fail> {
    let card = read(&rt, b"5 48\nwdpvp\n6 8 0 3 0\n")?;
    assert_eq!(rt; card.capacity(), 48);
    assert!(rt; card.entries() == &[WORD, DOUBLE, POP, POSITIONS, POP][..]);
    assert!(rt; read(&rt, b"0 0\n\n\n")?.entries().is_empty());
    Ok(())
}

#[test]
fn refuses(rt: HostRuntime) -> Result<(), Fail> {
    let texts: [&[u8]; 9] = [
        b"",
        b"1 048\nb\n4\n",
        b"1 8\nb\n4",
        b"2 8\nbh\n4  2\n",
        b"1 8\np\n1\n",
        b"1 8\nx\n4\n",
        b"2 8\nb\n4\n",
        b"1 8\nb\n4\n\n",
        b"1 100000000\nb\n4\n",
    ];
    for text in texts {
        let blank = Blank::new(rt.alloc())?;
        assert!(rt; Card::read(blank, text).is_err());
    }
    Ok(())
}
