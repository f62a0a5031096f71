use st_agreement::*;

#[test]
fn laws_are_called() {
    enough_correct();
    invariant_kept();
    prepared_values_are_safe();
    flat_refinement();
    one_voice();
    agreement();
    unions_of_reports();
    certificates();
    pending_changes();
    example_run();
    example_run_with_faults();
}
