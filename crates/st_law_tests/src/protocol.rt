use st_fields::Bytes;
use st_message::Message;
use st_protocol::*;
use std::test::*;

#[test]
fn laws_ask_nothing(rt: HostRuntime) {
    answers_that_grow();
    answers_of_longer_lists();
    answers_that_drop_nothing();
    log_that_runs();
    tests_of_sameness();
    quorums_and_majorities_are_enough();
    prepares_wait_for_unions();
    reports_leave_nothing_out();
    unions_heed_no_order();
    unions_take_the_lowest_index();
    restarts_keep_records::<Message>();
    messages_passed_read_clean();
    duty_at_a_clean_message::<Message>();
    duty_at_a_clean_message::<Bytes>();
    worlds_without_stops::<Message>();
    worlds_of_longer_schedules::<Bytes>();
    assert!(rt; true);
}
