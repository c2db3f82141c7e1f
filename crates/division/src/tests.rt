// Pots divided over loads.
ghost use Rattle.std.specs.Prelude.{ℕ, ◌≤◌};
ghost use Rattle.rows.specs.Limits.{max_kwh, max_cents};

use super::division::divide;
use rows::load::LoadRow;

fn load(kwh: u32, cents: u64) -> LoadRow
    requires { (kwh ≤ max_kwh) × (cents ≤ max_cents) }
{
    LoadRow {
        qse: 1,
        point: 1,
        kwh,
        cents,
    }
}

#[test]
fn rounding_moves_on(rt: HostRuntime) {
    let mut rows = [load(1, 0), load(1, 5), load(1, 0)];
    assert_eq!(rt; divide(&mut rows, 100).ok(), Some(100));
    assert_eq!(rt; [rows[0].cents, rows[1].cents, rows[2].cents], [33, 38, 34]);
}

#[test]
fn no_weight_gets_nothing(rt: HostRuntime) {
    let mut rows = [load(0, 0), load(5, 0), load(0, 0)];
    assert_eq!(rt; divide(&mut rows, 7).ok(), Some(7));
    assert_eq!(rt; [rows[0].cents, rows[1].cents, rows[2].cents], [0, 7, 0]);
}

#[test]
fn a_full_row_refuses_all(rt: HostRuntime) {
    let mut rows = [load(1, 0), load(0, 999_999_999_994)];
    assert_eq!(rt; divide(&mut rows, 7).ok(), None);
    assert_eq!(rt; rows[0].cents, 0);
    assert_eq!(rt; divide(&mut rows, 6).ok(), Some(6));
    assert_eq!(rt; rows[0].cents, 6);
}
