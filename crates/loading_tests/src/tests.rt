//! Expected values are those of readelf and /proc/PID/maps, or worked out by hand from the
//! definitions, and never taken from the program's output.

mod bytes;
mod checked_images;
mod failures;
mod formulas;
mod images;
mod images_32;
mod in_order;
mod loaders;
mod messages;
mod plans;
mod relocated_files;
mod relocated_images;
mod relocated_slots;
mod rows;
mod want;
mod word_errors;
mod words;
