//! The duties of a server and the world of a deployment, as definitions, with their laws: each law is the
//! contract of a function that has nothing to do.
#![tactic(auto)]

mod answers;
mod rules;
mod words;
mod worlds;

pub use answers::{
    answers_of_longer_lists, answers_that_drop_nothing, answers_that_grow, log_that_runs,
};
pub use rules::{
    prepares_wait_for_unions, quorums_and_majorities_are_enough, reports_leave_nothing_out,
    restarts_keep_records, unions_heed_no_order, unions_take_the_lowest_index,
};
pub use words::tests_of_sameness;
pub use worlds::{
    duty_at_a_clean_message, messages_passed_read_clean, worlds_of_longer_schedules,
    worlds_without_stops,
};
