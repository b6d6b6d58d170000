//! Objects by a small registry, and growths of memory that are refused.
mod growths;
mod objects;
