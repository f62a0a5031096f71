use st_fields::Bytes;
use st_message::Message;
use st_ranges::*;
use std::test::*;

#[test]
fn laws_ask_nothing(rt: HostRuntime) {
    duties_keep_ranges::<Message>();
    duties_keep_ranges::<Bytes>();
    parts_keep_ranges();
    worlds_send_in_range::<Message>();
    worlds_send_in_range::<Bytes>();
    messages_passed_read_as_sent();
    assert!(rt; true);
}
