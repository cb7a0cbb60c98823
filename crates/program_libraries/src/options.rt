//! The options of programs that find libraries, and the files after them.

use crate::finding::{CacheFile, Settings};

/// The files that the arguments of a program name.
#[derive(Clone, Copy, Debug, Drop)]
pub enum Given<'a> {
    /// A program at a path, whose libraries are found.
    Program(Settings<'a>, &'a str),
    /// These files alone.
    Files(&'a [String]),
}

/// How libraries are found if no option says otherwise.
pub fn own_settings<'a>() -> Settings<'a> {
    Settings {
        root: "",
        library_path: "",
        cache: CacheFile::Own,
    }
}

/// The settings after the option that comes first, and the arguments after it; `None` if it is none of these options, or has
/// no value.
pub fn with_option<'a>(
    settings: Settings<'a>,
    arguments: &'a [String],
) -> Option<(Settings<'a>, &'a [String])> {
    let (first, rest) = arguments.split_first()?;
    if first.as_str() == "--no-cache" {
        let without = Settings {
            cache: CacheFile::NoCache,
            ..settings
        };
        return Some((without, rest));
    }
    let (value, rest) = rest.split_first()?;
    Some((valued(settings, first.as_str(), value.as_str())?, rest))
}

// Settings with the value of the option of this name.
fn valued<'a>(settings: Settings<'a>, name: &str, value: &'a str) -> Option<Settings<'a>> {
    match name {
        "--root" => Some(Settings {
            root: value,
            ..settings
        }),
        "--library-path" => Some(Settings {
            library_path: value,
            ..settings
        }),
        "--cache" => Some(Settings {
            cache: CacheFile::At(value),
            ..settings
        }),
        _ => None,
    }
}

/// The files after the options; `None` if the arguments are not as they should be. One file is a program,
/// whose libraries are found, but not after `--alone`. Before several files there are no options.
pub fn given_files(arguments: &[String]) -> Option<Given<'_>> {
    let (first, others) = arguments.split_first()?;
    if first.as_str() == "--alone" {
        return if others.len() == 1 {
            Some(Given::Files(others))
        } else {
            None
        };
    }
    let (settings, paths) = settings_before(arguments)?;
    let (path, more) = paths.split_first()?;
    if more.is_empty() {
        return Some(Given::Program(settings, path.as_str()));
    }
    if paths.len() == arguments.len() {
        return Some(Given::Files(paths));
    }
    None
}

// The settings by the options, and the arguments after them.
fn settings_before(arguments: &[String]) -> Option<(Settings<'_>, &[String])> {
    let mut settings = own_settings();
    let mut rest = arguments;
    for _ in 0..arguments.len() {
        if !rest.first()?.as_str().starts_with("--") {
            break;
        }
        let (next, after) = with_option(settings, rest)?;
        settings = next;
        rest = after;
    }
    Some((settings, rest))
}
