//! Rows of the table of the Library of Congress, where growths of memory are refused.
mod growths;
