use st_fields::Bytes;
use st_leaf_laws::*;
use st_message::Message;
use std::test::*;

#[test]
fn laws_ask_nothing(rt: HostRuntime) {
    one_leaf_is_of_one_statement::<Message>();
    one_leaf_is_of_one_statement::<Bytes>();
    made_statements_are_recorded::<Message>();
    made_statements_are_recorded::<Bytes>();
    records_are_made_once::<Message>();
    records_are_made_once::<Bytes>();
    records_are_not_above::<Message>();
    records_are_not_above::<Bytes>();
    records_are_of_their_site::<Message>();
    records_are_of_their_site::<Bytes>();
    leaves_count_up::<Message>();
    leaves_count_up::<Bytes>();
    assert!(rt; true);
}
