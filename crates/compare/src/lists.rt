// Lists of figures as they are entered, most of them within the limits.
use super::dice::Dice;
use std::alloc::{AllocError, Global};

pub(crate) fn figures_list(
    heap: Global,
    dice: &mut Dice,
    qse: i64,
) -> Result<Vec<i64>, AllocError> {
    let mut list = Vec::new(heap);
    list.push(qse)?;
    list.push(if dice.one_in(2) { 0 } else { dice.amount() })?;
    // much that is bought leaves the reserves alone to bind
    let times = if dice.one_in(2) { 40 } else { 1 };
    list.push(dice.power(times))?;
    list.push(dice.amount())?;
    list.push(dice.number(0, 1))?;
    for _ in 0..2 {
        list.push(dice.amount())?;
        list.push(dice.signed_power())?;
        for _ in 0..9 {
            list.push(dice.amount())?;
        }
    }
    Ok(list)
}

pub(crate) fn load_list(heap: Global, dice: &mut Dice, qse: i64) -> Result<Vec<i64>, AllocError> {
    let point = dice.number(0, 65_535);
    Ok(vec![in heap; qse, point, dice.kwh()]?)
}

pub(crate) fn trade_list(
    heap: Global,
    dice: &mut Dice,
    seller: i64,
    buyer: i64,
) -> Result<Vec<i64>, AllocError> {
    let kind = dice.number(1, 2);
    let sub_type = if kind == 3 { dice.number(1, 8) } else { 0 };
    let sides = dice.number(1, 2);
    let kw = dice.power(1).max(1);
    Ok(vec![in heap; kind, sub_type, sides, seller, buyer, kw]?)
}

pub(crate) fn resource_list(
    heap: Global,
    dice: &mut Dice,
    qse: i64,
) -> Result<Vec<i64>, AllocError> {
    let kind = dice.number(1, 3);
    let takes_marks = kind == 1 || kind == 3;
    let outage = i64::from(takes_marks && dice.one_in(4));
    let decommitted = i64::from(takes_marks && dice.one_in(5));
    let kw_before = if decommitted == 1 { dice.power(2) } else { 0 };
    let mut list = vec![in heap; qse, kind, outage, decommitted, kw_before]?;
    add_plan(&mut list, dice, kind)?;
    add_plan(&mut list, dice, kind)?;
    Ok(list)
}

fn add_plan(list: &mut Vec<i64>, dice: &mut Dice, kind: i64) -> Result<(), AllocError> {
    let status = if dice.one_in(2) { 1 } else { dice.number(0, 3) };
    let hsl = dice.power(3);
    list.push(status)?;
    list.push(hsl)?;
    list.push(lsl_below(dice, hsl, kind))?;
    list.push(if kind == 2 { dice.power(3) } else { 0 })?;
    add_capabilities(list, dice)
}

fn lsl_below(dice: &mut Dice, hsl: i64, kind: i64) -> i64 {
    let power = dice.power(1);
    if kind == 3 && dice.one_in(2) {
        power.saturating_neg()
    } else if dice.one_in(2) {
        0
    } else {
        power.min(hsl)
    }
}

// What is planned and qualified is mostly what is offered, so that the least of them is seldom 0.
fn add_capabilities(list: &mut Vec<i64>, dice: &mut Dice) -> Result<(), AllocError> {
    let mut offered = [0; 9];
    for kw in offered.iter_mut() {
        *kw = dice.amount();
        list.push(*kw)?;
    }
    for _ in 0..2 {
        for kw in &offered {
            list.push(if dice.one_in(5) { dice.amount() } else { *kw })?;
        }
    }
    Ok(())
}

// The list with a number less, a number more, or a number replaced.
pub(crate) fn spoil(dice: &mut Dice, list: &mut Vec<i64>) -> Result<(), AllocError> {
    match dice.up_to(7) {
        0 => {
            let _ = list.pop();
        }
        1 => list.push(dice.bad_number())?,
        _ => {
            let most = u32::try_from(list.len()).unwrap_or(0).saturating_sub(1);
            let place = dice.length(most);
            if let Some(number) = list.get_mut(place) {
                *number = dice.bad_number();
            }
        }
    }
    Ok(())
}
