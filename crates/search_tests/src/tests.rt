//! Expected values are those of `ld.so` of glibc 2.36, printed with LD_DEBUG=libs and
//! LD_TRACE_LOADED_OBJECTS, or worked out by hand from its manual page, and never taken from the
//! program's output.

mod cache;
mod candidates;
mod fits;
mod messages;
mod objects;
mod order;
mod tokens;
mod want;
