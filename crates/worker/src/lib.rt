// Rule 9: the steps of an engine. Each takes one answer of the host and gives one request or one event. `step_checks` has
// which answers are accepted, `step_answers` what each comes to.
#![tactic(auto)]

pub mod steps; // a step whole
