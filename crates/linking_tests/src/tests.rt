//! Expected values are worked out by hand from the format,
//! and never taken from the program's output.

mod bind;
mod find;
mod references;
mod want;
