use levels::Lattice;
use levels::pair::Pair;
use levels::refusal::Fault;
use levels::table::{OrderTable, Rank};
use levels::tags::{TagSet, Tags};
use std::alloc::Global;
use std::process::Abort;
use std::test::Fail;

// What the making of a table answers: `made`, or what the fault tells.
fn making(heap: Global, rows: &[u16]) -> Result<String, Fail> {
    // By arms: of a table that was made nothing is told but that it was, so no method of `Result` is plainer.
    match OrderTable::new(rows) {
        Ok(_) => Ok(String::from_str(heap, "made")?),
        Err(fault) => Ok(fault.refusal().to_string(heap)?),
    }
}

fn expect(rt: &(impl Abort + AllocGlobal), rows: &[u16], wanted: &str) -> Result<(), Fail> {
    let told = making(rt.alloc(), rows)?;
    assert!(rt; told.as_str() == wanted, "{}", wanted);
    Ok(())
}

// A chain of 16 levels.
const CHAIN: [u16; 16] = [
    0xffff, 0xfffe, 0xfffc, 0xfff8, 0xfff0, 0xffe0, 0xffc0, 0xff80, 0xff00, 0xfe00, 0xfc00, 0xf800,
    0xf000, 0xe000, 0xc000, 0x8000,
];

// 0 < 1 < 2 < 4 and 0 < 3 < 4.
const PENTAGON: [u16; 5] = [0b11111, 0b10110, 0b10100, 0b11000, 0b10000];

// 0 < 1, 2, 3 < 4.
const DIAMOND: [u16; 5] = [0b11111, 0b10010, 0b10100, 0b11000, 0b10000];

#[test]
fn shapes_of_tables(rt: HostRuntime) -> Result<(), Fail> {
    expect(&rt, &[], "refused levels 1 at 0")?;
    expect(&rt, &[1], "made")?;
    expect(&rt, &[2], "refused levels 1 at 0")?;
    expect(&rt, &CHAIN, "made")?;
    expect(&rt, &[0; 17], "refused levels 1 at 0")
}

#[test]
fn orders_of_tables(rt: HostRuntime) -> Result<(), Fail> {
    expect(&rt, &[3, 2], "made")?;
    expect(&rt, &PENTAGON, "made")?;
    expect(&rt, &DIAMOND, "made")?;
    // no order at all, two levels that mark each other, a broken chain, two highest levels, two bounds of two
    expect(&rt, &[1, 2], "refused levels 2 at 0")?;
    expect(&rt, &[0], "refused levels 2 at 0")?;
    expect(&rt, &[3, 3], "refused levels 2 at 0")?;
    expect(&rt, &[0b011, 0b110, 0b100], "refused levels 2 at 0")?;
    expect(&rt, &[0b111, 0b010, 0b100], "refused levels 2 at 0")?;
    expect(
        &rt,
        &[0b111111, 0b111010, 0b111100, 0b101000, 0b110000, 0b100000],
        "refused levels 2 at 0",
    )
}

#[test]
fn answers_of_a_table(rt: HostRuntime) -> Result<(), Fail> {
    let table = OrderTable::new(&PENTAGON)?;
    assert_eq!(rt;
        table.join(Rank { number: 1 }, Rank { number: 3 }),
        Rank { number: 4 }
    );
    assert_eq!(rt;
        table.meet(Rank { number: 2 }, Rank { number: 3 }),
        Rank { number: 0 }
    );
    assert_eq!(rt; table.lowest(), Rank { number: 0 });
    assert_eq!(rt; table.highest(), Rank { number: 4 });
    assert!(rt; table.le(Rank { number: 1 }, Rank { number: 2 }));
    assert!(rt; !table.le(Rank { number: 2 }, Rank { number: 1 }));
    Ok(())
}

#[test]
fn values_that_are_no_levels(rt: HostRuntime) -> Result<(), Fail> {
    let table = OrderTable::new(&[2 + 1, 2])?;
    let beyond = Rank { number: 2 };
    assert!(rt; !table.is_level(beyond) && !table.le(beyond, beyond));
    assert_eq!(rt; table.join(beyond, Rank { number: 1 }), Rank { number: 0 });
    let tags = Tags::new(0b0101);
    let foreign = TagSet { bits: 0b0110 };
    assert!(rt; !tags.is_level(foreign) && !tags.le(foreign, foreign));
    assert_eq!(rt; tags.join(foreign, TagSet { bits: 1 }), TagSet { bits: 0 });
    assert_eq!(rt; tags.meet(foreign, TagSet { bits: 4 }), TagSet { bits: 0 });
    Ok(())
}

#[test]
fn pairs(rt: HostRuntime) -> Result<(), Fail> {
    let both = Pair::new(
        OrderTable::new(&[3, 2])?,
        Pair::new(Tags::new(7), Tags::new(1)),
    );
    let a = (Rank { number: 1 }, (TagSet { bits: 1 }, TagSet { bits: 0 }));
    let b = (Rank { number: 0 }, (TagSet { bits: 2 }, TagSet { bits: 1 }));
    assert!(rt; !both.le(a, b) && !both.le(b, a));
    let join = both.join(a, b);
    assert_eq!(rt; join.0, Rank { number: 1 });
    assert_eq!(rt; join.1.0, TagSet { bits: 3 });
    assert_eq!(rt; join.1.1, TagSet { bits: 1 });
    // one side is no level: the pair is none, and join gives the lowest of both sides
    let off = (Rank { number: 1 }, (TagSet { bits: 8 }, TagSet { bits: 1 }));
    assert!(rt; !both.is_level(off));
    let lowest = both.join(a, off);
    assert_eq!(rt; lowest.0, Rank { number: 0 });
    assert_eq!(rt; lowest.1.1, TagSet { bits: 0 });
    Ok(())
}
