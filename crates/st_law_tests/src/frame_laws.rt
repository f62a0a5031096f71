use st_fields::Bytes;
use st_frame_laws::*;
use st_message::Message;
use std::test::*;

#[test]
fn laws_ask_nothing(rt: HostRuntime) {
    lines_keep_what_events_keep::<Message>();
    lines_keep_what_events_keep::<Bytes>();
    assert!(rt; true);
}
