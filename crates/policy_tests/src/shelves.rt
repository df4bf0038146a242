use books::TypeBook;
use books::fixed::FixedBook;
use books::numbers::Numbers;
use books::row::RowBook;
use levels::refusal::Fault;
use std::process::Abort;
use std::test::Fail;

// Whether a row book with one type, no figures and 2^n levels of these is made.
fn permissions_taken(
    rt: &(impl Abort + AllocGlobal),
    permissions: u32,
    levels: &[u8],
) -> Result<bool, Fail> {
    let numbers = Numbers {
        permissions,
        types: 1,
        figures: 0,
    };
    match RowBook::new(rt.alloc(), numbers, levels, &[]) {
        Ok(_) => Ok(true),
        Err(fault) => {
            assert!(rt; fault.refusal().to_string(rt.alloc())?.as_str() == "refused books 3 at 0");
            Ok(false)
        }
    }
}

#[test]
fn numbers_of_permissions(rt: HostRuntime) -> Result<(), Fail> {
    assert!(rt; permissions_taken(&rt, 0, &[9])?);
    assert!(rt; permissions_taken(&rt, 6, &[9; 64])?);
    assert!(rt; !permissions_taken(&rt, 6, &[9; 63])?);
    assert!(rt; !permissions_taken(&rt, 7, &[9; 128])?);
    assert!(rt; !permissions_taken(&rt, 4294967295, &[])?);
    Ok(())
}

fn fixed_taken(
    rt: &HostRuntime,
    types: u32,
    figures: u32,
    levels: &[u8],
    figure_levels: &[u8],
) -> bool {
    let numbers = Numbers {
        permissions: 2,
        types,
        figures,
    };
    FixedBook::new(rt.alloc(), numbers, levels, figure_levels).is_ok()
}

#[test]
fn numbers_of_types_and_figures(rt: HostRuntime) {
    assert!(rt; fixed_taken(&rt, 256, 32, &[1; 256], &[2; 32]));
    assert!(rt; !fixed_taken(&rt, 257, 0, &[1; 257], &[]));
    assert!(rt; !fixed_taken(&rt, 0, 0, &[], &[]));
    assert!(rt; !fixed_taken(&rt, 1, 33, &[1], &[2; 33]));
    assert!(rt; !fixed_taken(&rt, 2, 0, &[1], &[]));
    assert!(rt; !fixed_taken(&rt, 1, 0, &[1], &[2]));
}

#[test]
fn levels_of_a_row_book(rt: HostRuntime) -> Result<(), Fail> {
    let numbers = Numbers {
        permissions: 1,
        types: 2,
        figures: 1,
    };
    let book = RowBook::new(rt.alloc(), numbers, &[10, 11, 20, 21], &[30])?;
    assert_eq!(rt; book.level(0, 1), Some(11));
    assert_eq!(rt; book.level(1, 0), Some(20));
    assert_eq!(rt; book.level(1, 2), None);
    assert_eq!(rt; book.level(2, 0), None);
    assert_eq!(rt; book.figure_level(0), Some(30));
    assert_eq!(rt; book.figure_level(1), None);
    Ok(())
}

// A level, asked of any book.
fn asked<B: TypeBook<Level = u8> + Drop>(book: B) -> (u16, Option<u8>) {
    let types = book.types();
    let level = book.level(1, 3);
    (types, level)
}

#[test]
fn levels_of_a_fixed_book(rt: HostRuntime) -> Result<(), Fail> {
    let numbers = Numbers {
        permissions: 2,
        types: 2,
        figures: 0,
    };
    let book = FixedBook::new(rt.alloc(), numbers, &[10, 20], &[])?;
    assert_eq!(rt; book.level(0, 0), Some(10));
    assert_eq!(rt; book.level(1, 4), None);
    let (types, level) = asked(&book);
    assert_eq!(rt; types, 2);
    assert_eq!(rt; level, Some(20));
    Ok(())
}
