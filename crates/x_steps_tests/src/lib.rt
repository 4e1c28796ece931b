//! Tests of `x_steps`, `cover_links`, `cover_bits` and `table_probe`: the table of nodes and its memory, the worked example, each refusal,
//! which table a search prefers, and drawn problems, alone and side by side over three tables.
#![tactic(auto)]

#[cfg(test)]
mod drawn_tests;
#[cfg(test)]
mod link_tests;
#[cfg(test)]
mod lockstep_tests;
#[cfg(test)]
mod machine_tests;
#[cfg(test)]
mod memory_tests;
#[cfg(test)]
mod probe_tests;
#[cfg(test)]
mod rule_tests;
#[cfg(test)]
mod walk_tests;
