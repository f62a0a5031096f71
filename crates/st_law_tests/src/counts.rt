use st_counts::*;

#[test]
fn laws_hold_at_a_type() {
    counting::<u8>();
    distinct_elements::<u8>();
    numbers();
    tests_share::<u8>();
    majorities_share::<u8>();
    quorum_stands::<u8>();
    sites_majority();
}
