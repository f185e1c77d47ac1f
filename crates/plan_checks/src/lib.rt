//! Tests of `plan`: the same steps as `plan_plain` on graphs that are made up, and graphs of many edges.
#![tactic(auto)]

#[cfg(test)]
mod graphs;
#[cfg(test)]
mod made_up;
#[cfg(test)]
mod plain_run;
#[cfg(test)]
mod run;
#[cfg(test)]
mod same_steps;
#[cfg(test)]
mod sizes;
