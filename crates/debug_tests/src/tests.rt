//! Expected values are those of zlib's `crc32`, of the example in gdb's manual ("Separate Debug
//! Files"), or written by hand from it, and never taken from the program's output.

mod crc;
mod paths;
mod want;
mod wanted;
