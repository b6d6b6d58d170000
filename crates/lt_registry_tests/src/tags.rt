//! Subtags and tags, by their topics.
mod cores;
mod displays;
mod growths;
mod parts;
mod plain_langtags;
mod reading;
mod subtags;
mod tags;
