//! Tests of tags and their parts, of record jars, and of registries, over what their crates make public.
#![tactic(auto)]

#[cfg(test)]
mod jars;
#[cfg(test)]
mod registries;
#[cfg(test)]
mod tags;
