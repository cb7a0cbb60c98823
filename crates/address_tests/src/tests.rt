//! Expected values are worked out by hand from the definitions, and never taken from the program's
//! output.

mod backtrace;
mod candidates;
mod differences;
mod dladdr;
mod files;
mod index;
mod messages;
mod nearest;
mod pieces;
mod ranges;
mod reached;
mod rows;
mod section_counts;
mod symbol_pieces;
mod symtab;
mod want;
