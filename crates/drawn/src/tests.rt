// Each list once. The numbers were found apart from this crate, by the rule of the draws alone.
use super::draws::Draws;
use entry::qse::qse_row;
use std::alloc::AllocError;

const SEED: u64 = 7;

const FIGURES: [i64; 27] = [
    5, 0, 6000, 0, 0, 0, 0, 81, 53, 220, 173, 66, 112, 235, 212, 33, 0, 0, 81, 53, 220, 173, 66,
    112, 235, 212, 33,
];

const UNIT: [i64; 67] = [
    5, 3, 0, 0, 0, 1, 769, -606, 0, 23, 259, 0, 87, 225, 200, 72, 124, 101, 23, 259, 0, 87, 225,
    200, 72, 124, 101, 23, 259, 0, 87, 225, 200, 72, 124, 101, 1, 769, -606, 0, 23, 259, 0, 87,
    225, 200, 72, 124, 101, 23, 259, 0, 87, 225, 200, 72, 124, 101, 23, 259, 0, 87, 225, 200, 72,
    124, 101,
];

#[test]
fn numbers(rt: HostRuntime) {
    let mut draws = Draws::new(rt.alloc(), SEED);
    for number in [56, 63, 6, 46, 90] {
        assert_eq!(rt; draws.up_to(99), number);
    }
    assert_eq!(rt; draws.up_to(u32::MAX), 594514439);
}

#[test]
fn load(rt: HostRuntime) -> Result<(), AllocError> {
    let list = Draws::new(rt.alloc(), SEED).load(5)?;
    assert_eq!(rt; list.as_slice(), [5, 1, 352].as_slice());
    Ok(())
}

#[test]
fn trade(rt: HostRuntime) -> Result<(), AllocError> {
    let list = Draws::new(rt.alloc(), SEED).trade(5, 6)?;
    assert_eq!(rt; list.as_slice(), [2, 0, 1, 5, 6, 58].as_slice());
    Ok(())
}

#[test]
fn figures(rt: HostRuntime) -> Result<(), AllocError> {
    let list = Draws::new(rt.alloc(), SEED).figures(5, 3)?;
    assert_eq!(rt; list.as_slice(), FIGURES.as_slice());
    let number = qse_row(list.as_slice()).ok().map(|row| row.number);
    assert_eq!(rt; number, Some(5));
    Ok(())
}

#[test]
fn unit(rt: HostRuntime) -> Result<(), AllocError> {
    let list = Draws::new(rt.alloc(), SEED).unit(5)?;
    assert_eq!(rt; list.as_slice(), UNIT.as_slice());
    Ok(())
}
