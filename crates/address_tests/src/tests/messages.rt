//! The texts of errors, and their numbers.

use crate::tests::want::want_at;
use elf_addresses::IndexError;
use std::alloc::AllocError;
use worked_files::rows;

const ERRORS: &[(IndexError, u32, &str)] = rows! {
    IndexError::ManySymbols, 401, "Table has 2^32 symbols or more";
    IndexError::FewWords, 402, "Too few words for the index";
};

#[test]
fn errors_have_numbers_and_texts(rt: HostRuntime) -> Result<(), AllocError> {
    for &(error, number, text) in ERRORS {
        want_at(&rt, number, error.number(), number);
        want_at(&rt, number, error.message(), text);
        want_at(&rt, number, IndexError::with_number(number), Some(error));
        let printed = format!(in rt.alloc(); "{error}")?;
        want_at(&rt, number, printed.as_str(), text);
    }
    want_at(&rt, 400, IndexError::with_number(400), None);
    want_at(&rt, 403, IndexError::with_number(403), None);
    Ok(())
}
