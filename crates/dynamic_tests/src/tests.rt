//! Expected values are worked out by hand from the format,
//! and never taken from the program's output.

mod any_table;
mod by_name;
mod gnu_hash;
mod linked;
mod messages;
mod notes;
mod object;
mod relr;
mod sections;
mod segments;
mod shared_object;
mod symbols;
mod twice;
mod versions;
mod view;
mod want;
