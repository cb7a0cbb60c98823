//! Lines of reports on worked files.

use std::alloc::Global;
use xmas_elf::report::report;

/// Whether the report of an input is written whole and ends with these lines.
pub fn report_ends_with(alloc: Global, input: &[u8], lines: &str) -> bool {
    let mut text = Vec::new(alloc);
    report(input, &mut text).is_ok() && text.as_slice().ends_with(lines.as_bytes())
}
