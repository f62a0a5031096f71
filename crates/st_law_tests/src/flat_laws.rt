use st_flat_laws::*;
use std::test::*;

#[test]
fn laws_ask_nothing(rt: HostRuntime) {
    advances_are_flat_steps();
    assert!(rt; true);
}
