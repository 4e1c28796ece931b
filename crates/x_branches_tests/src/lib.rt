//! Tests of `x_branches`: the worked example, each refusal, and drawn problems over both tables. They stand apart from it since a
//! crate with tests is proved twice, and since dancing links are no part of what branches stand on.
#![tactic(auto)]

#[cfg(test)]
mod begin_tests;
#[cfg(test)]
mod cut_tests;
#[cfg(test)]
mod drawn_tests;
#[cfg(test)]
mod fixtures;
#[cfg(test)]
mod memory_tests;
#[cfg(test)]
mod order_tests;
#[cfg(test)]
mod refusal_tests;
#[cfg(test)]
mod runner_tests;
#[cfg(test)]
mod stretch_tests;
