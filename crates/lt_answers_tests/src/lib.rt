//! Tests of what `lt_show`, `lt_answers`, `lt_codes`, `lt_lines` and `lt_range` make public, and the uses of `bcp47` that
//! `docs/LIBRARY.md` shows.
#![tactic(auto)]

#[cfg(test)]
mod accept_language;
#[cfg(test)]
mod codes;
#[cfg(test)]
mod json;
#[cfg(test)]
mod lines;
#[cfg(test)]
mod matched;
#[cfg(test)]
mod pages;
#[cfg(test)]
mod ranges;
#[cfg(test)]
mod shown;
#[cfg(test)]
mod tables;
#[cfg(test)]
mod uses;
