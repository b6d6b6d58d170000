//! Tests of steps, of the check, of canonical tags, of upgrades and of recent answers, over what their crates make public.
#![tactic(auto)]

#[cfg(test)]
mod canonical;
#[cfg(test)]
mod rewriting;
#[cfg(test)]
mod steps;
