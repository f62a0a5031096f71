use st_flows::*;
use st_message::Message;
use std::test::*;

#[test]
fn laws_ask_nothing(rt: HostRuntime) {
    ended_worlds_stay_ended::<Message>();
    plain_worlds_stay_plain::<Message>();
    flows_one_by_one::<Message>();
    sends_of_no_bytes::<Message>();
    worlds_stay_small::<Message>();
    lines_one_by_one::<Message>();
    deliveries_to_servers::<Message>();
    assert!(rt; true);
}
