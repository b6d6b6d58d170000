//! Lines that are answered by the sample, where growths of memory are refused.
mod growths;
