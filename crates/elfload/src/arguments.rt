//! What the arguments ask for.

ghost use Rattle.std.specs.Prelude.{◌≡◌, ◌<◌, IfSome};
ghost use Rattle.elfload.specs.Verdicts.{option_of};

use crate::Options;
use elf_loading::{Binding, Loader};
use program_ends::json::Form;
use program_libraries::{Given, Settings, given_files};

/// The size of a page, how libraries are found, and the program whose start is asked for, if it is asked for as it should be.
pub(crate) fn asked_of_start(arguments: &[String]) -> Option<(u64, Settings<'_>, &str)>
    ensures { IfSome result (λ asked. 0 < asked.0) }
{
    let (first, others) = arguments.split_first()?;
    if first.as_str() != "--start" {
        return None;
    }
    let (page, rest) = page_of(others)?;
    match given_files(rest)? {
        Given::Program(settings, path) => Some((page, settings, path)),
        Given::Files(_) => None,
    }
}

/// The loader that is asked for, the size of a page, and the files, if one loader is asked for as it should be.
pub(crate) fn asked_of_loader(arguments: &[String]) -> Option<(Loader, u64, &[String])>
    ensures { IfSome result (λ asked. 0 < asked.1) }
{
    let (first, others) = arguments.split_first()?;
    let by = loader_of(first.as_str())?;
    let (page, paths) = page_of(others)?;
    let (path, _) = paths.split_first()?;
    if path.as_str().starts_with("--") {
        return None;
    }
    Some((by, page, paths))
}

// The loader that an option names.
fn loader_of(option: &str) -> Option<Loader>
    ensures { IfSome result (λ by. option.now ≡ option_of by) }
{
    match option {
        "--kernel" => Some(Loader::Kernel),
        "--glibc" => Some(Loader::Glibc),
        _ => None,
    }
}

/// What the arguments ask for, and of which files, if they are as they should be.
pub(crate) fn asked(form: Form, arguments: &[String]) -> Option<(Options<'_>, Given<'_>)>
    ensures { IfSome result (λ asked. 0 < asked.0.page) }
{
    let (first, others) = arguments.split_first()?;
    let (when, rest) = if first.as_str() == "--lazy" {
        (Binding::Lazy, others)
    } else {
        (Binding::Now, arguments)
    };
    let (page, rest) = page_of(rest)?;
    let asked = Options {
        page,
        when,
        form,
        steps: None,
    };
    Some((asked, given_files(rest)?))
}

// The size of a page that the arguments ask for, and those after it, if it is as it should be.
fn page_of(arguments: &[String]) -> Option<(u64, &[String])>
    ensures { IfSome result (λ asked. 0 < asked.0) }
{
    let (first, others) = arguments.split_first()?;
    if first.as_str() != "--page" {
        return Some((4096, arguments));
    }
    let (size, rest) = others.split_first()?;
    let page = size.as_str().parse::<u64>().ok()?;
    if !page.is_power_of_two() {
        return None;
    }
    Some((page, rest))
}
