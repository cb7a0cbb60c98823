//! What the arguments ask for.

use program_ends::json::{Form, form_asked};
use program_libraries::{Settings, own_settings, with_option};

/// What the arguments ask for.
#[derive(Clone, Copy, Debug, Drop)]
pub struct Options<'a> {
    /// How the lines are written.
    pub form: Form,
    /// How libraries are found.
    pub settings: Settings<'a>,
    /// Whether the order of starts is written too.
    pub has_starts: bool,
    /// Whether the paths alone are written.
    pub is_list: bool,
}

/// The options at the beginning of the arguments, and the files after them; `None` if the arguments are
/// not as they should be.
pub fn asked(arguments: &[String]) -> Option<(Options<'_>, &[String])> {
    let (form, arguments) = form_asked(arguments);
    let mut options = Options {
        form,
        settings: own_settings(),
        has_starts: false,
        is_list: false,
    };
    let mut rest = arguments;
    for _ in 0..arguments.len() {
        let first = rest.first()?;
        if !first.as_str().starts_with("--") {
            return Some((options, rest));
        }
        let (next, after) = taken(options, rest)?;
        options = next;
        rest = after;
    }
    None
}

// The options with the one that comes first, and the arguments after it.
fn taken<'a>(options: Options<'a>, arguments: &'a [String]) -> Option<(Options<'a>, &'a [String])> {
    let (first, rest) = arguments.split_first()?;
    let with_flag = match first.as_str() {
        "--start" => Options {
            has_starts: true,
            ..options
        },
        "--list" => Options {
            is_list: true,
            ..options
        },
        _ => {
            let (settings, rest) = with_option(options.settings, arguments)?;
            return Some((
                Options {
                    settings,
                    ..options
                },
                rest,
            ));
        }
    };
    Some((with_flag, rest))
}
