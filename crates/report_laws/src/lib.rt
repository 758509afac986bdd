//! The laws of reports: an accepted one is true, what one open answer says, and what a reader of lines keeps.
#![tactic(auto)]

mod examples;
mod laws;
mod open_laws;
mod scope_laws;

pub use examples::{learning_reports, staff_reports};
pub use laws::{
    accepted_by_the_rest, accepted_is_true, accepted_pieces, accepted_report_is_of_lines,
    accepted_report_is_true, all_mode_decides, answers_are_counted, base_clauses_of_priority,
    base_clauses_say_chosen, broken_by_the_rest, broken_once, broken_report_is_of_lines,
    clashes_are_conflict_lists, clauses_are_few, confirmed_is_true, cores_are_few,
    disjointness_blocks_are_closures, exact_lists_are_one, input_has_priority, judged_by_lines,
    large_budget_decides, laws_of_components, laws_of_cycles, laws_of_hits, laws_of_live_lists,
    laws_of_standing, lines_are_judged, live_clauses_are_true, open_answers_are_counted,
    open_said_are_counted, priority_has_input, priority_tells_conflicts, query_block_is_closure,
    reports_are_judged_once, right_lines_are_true, rules_at_standing, said_are_counted,
    supports_are_matches, tests_tell_evidence, tries_are_easy, tries_are_few, verdicts_are_true,
};
pub use open_laws::{
    added_lines_answer, added_lines_learn, answered_in_all_mode, answered_is_decided,
    answered_is_true, answered_keeps, answers_keep_options, answers_keep_truth, cores_go_on,
    inside_is_right, open_all_mode_decides, open_budget_decides, open_clauses_are_true,
    open_verdicts_are_true, over_priority_all_decides, over_priority_budget_decides,
    right_lines_hold, right_lines_number_cores, right_lines_open_answers, some_reading,
    start_is_told, starts_carry,
};
pub use scope_laws::{
    apart_or_marked, base_clauses_are_apart, bound_exists, cause_clauses_are_inside,
    components_are_scope, conflicts_tell_bounds, forgetting_keeps, free_facts_have_units,
    loaded_clauses_decide, open_facts_conflict, open_literals_may_be_learned, scope_begins,
    scope_decides_live, scope_ends, scope_gives_rules, scope_has_base_clauses,
    scope_separates_live, scope_stays, selector_is_absent, selector_is_own, solver_steps_are_right,
    starts_carry_apart,
};
