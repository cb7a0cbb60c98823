//! Expected values are worked out by hand from the format,
//! and never taken from the program's output.

mod checks;
mod data;
mod hash;
mod headers;
mod iterators;
mod json;
mod messages;
mod names;
mod notes;
mod numbers;
mod printed;
mod relocations;
mod sections;
mod segments;
mod shared_object;
mod symbol_numbers;
mod symbol_ranges;
mod symbol_sections;
mod symbols;
mod tables;
mod tags;
mod texts;
mod want;
mod wide;
mod writers;
