// The twelve cases, run.
use super::worked::worked_cases;

#[test]
fn the_library_gives_the_figures(rt: HostRuntime) {
    let worked = worked_cases();
    let regulated = worked.values[4];
    assert_eq!(rt; (regulated.grouped, regulated.sub_type), (0, 100));
    assert_eq!(rt; worked.traded.pool.grouped, 3000);
    assert_eq!(rt; worked.even, [33, 33, 34]);
    assert_eq!(rt; worked.charged.on_loads, [266, 134]);
}
