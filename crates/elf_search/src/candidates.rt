//! The paths at which the loader looks for a library, in order (`ld.so`'s manual page, the search of
//! libraries).

ghost use Rattle.std.specs.Prelude.{◌≡◌, ◌+◌, ◌∷◌, ◌<◌, ◌^◌, [], IfSome, MatchOption, option_map, slice_get};
ghost use Rattle.elf_search.specs.Candidates.{all_candidates, asked_parts, asker_parts, cache_list};
ghost use Rattle.elf_search.specs.Candidates.{candidate_at, candidates_left, conf_list, default_list};
ghost use Rattle.elf_search.specs.Candidates.{directories, first_how, has_no_default, has_slash};
ghost use Rattle.elf_search.specs.Candidates.{is_under, is_under_default, later_candidates, list_of};
ghost use Rattle.elf_search.specs.Candidates.{next_how, one_path, r_path_list, r_path_text};
ghost use Rattle.elf_search.specs.Candidates.{rest_of_list, run_path_list, run_path_text, searched};
ghost use Rattle.elf_search.specs.Lists.{candidate_parts, list_parts};
ghost use Rattle.elf_search.specs.Tokens.{values_of};

use crate::elements::element_at;
use crate::lists::SearchList;
pub use crate::lists::{Candidate, How};
use crate::tokens::TokenValues;

/// What an object says about the search for libraries.
#[derive(Clone, Copy, Debug)]
pub struct Asker<'s> {
    /// The search path of its last DT_RPATH. It counts only if there is no `run_path`, not even an
    /// empty one.
    pub r_path: Option<&'s [u8]>,
    /// The search path of its last DT_RUNPATH.
    pub run_path: Option<&'s [u8]>,
    /// The values of its dynamic string tokens.
    pub values: TokenValues<'s>,
    /// Whether it has the flag DF_1_NODEFLIB: no library is looked for in the default directories.
    pub no_default: bool,
}

/// What a search depends on, apart from the objects that ask.
#[derive(Clone, Copy, Debug)]
pub struct Surroundings<'s> {
    /// The value of LD_LIBRARY_PATH; empty if it is not set.
    pub environment: &'s [u8],
    /// The values of the tokens for the program, with which LD_LIBRARY_PATH is expanded.
    pub program: TokenValues<'s>,
    /// The path that the cache has for the name; empty if it has none.
    pub cache: &'s [u8],
    /// The directories of ld.so.conf, one in each line, where there is no cache; otherwise empty.
    pub conf: &'s [u8],
    /// The default directories, with colons between them.
    pub defaults: &'s [u8],
    /// The subdirectories of each directory that are tried before it, each with a slash at its end,
    /// and the empty one for the directory itself, which is the last.
    pub subdirectories: &'s [&'s [u8]],
}

// The element and the subdirectory of a list that come next.
#[derive(Clone, Copy, Debug)]
struct Place {
    element: usize,
    subdirectory: usize,
}

// The beginning of a list.
const START: Place = Place {
    element: 0,
    subdirectory: 0,
};

/// An iterator over the candidates for a name.
#[derive(Clone, Copy, Debug, Drop)]
pub struct Candidates<'s> {
    asked: Asked<'s>,
    // The list that comes next, `None` after the last.
    how: Option<How>,
    place: Place,
}

// What is asked for.
#[derive(Clone, Copy, Debug)]
struct Asked<'s> {
    name: &'s [u8],
    // The objects, from the one that asks to the program.
    chain: &'s [Asker<'s>],
    around: Surroundings<'s>,
}

impl<'s> Asked<'s> {
    // Whether the name contains a slash.
    fn has_slash(&self) -> bool
        ensures { result ≡ has_slash (asked_parts self.now).name }
    {
        self.name.contains(&b'/')
    }

    // The object at a place in the chain.
    #[tactic(auto, using(crate::proofs::ListSteps::asker_some, crate::proofs::ListSteps::asker_none))]
    fn asker_at(&self, place: usize) -> Option<Asker<'s>>
        ensures { option_map asker_parts result ≡ slice_get (asked_parts self.now).chain place }
    {
        if place < self.chain.len() {
            return Some(self.chain[place]);
        }
        None
    }

    // Whether the object that asks wants no default directories.
    fn has_no_default(&self) -> bool
        ensures { result ≡ has_no_default (asked_parts self.now) }
    {
        match self.asker_at(0) {
            Some(asker) => asker.no_default,
            None => false,
        }
    }

    // The first list.
    fn first_how(&self) -> How
        ensures { result ≡ first_how (asked_parts self.now) }
    {
        if self.has_slash() {
            return How::Itself;
        }
        match self.asker_at(0) {
            Some(asker) => {
                if asker.run_path.is_some() {
                    return How::Environment;
                }
                How::Rpath(0)
            }
            None => How::Environment,
        }
    }

    // The list after one.
    #[tactic(auto, using(crate::proofs::ListSteps::asker_count))]
    fn next_how(&self, how: How) -> Option<How>
        ensures { result ≡ next_how (asked_parts self.now) how }
    {
        match how {
            How::Itself | How::Default => None,
            How::Rpath(place) => {
                if place < self.chain.len() && place + 1 < self.chain.len() {
                    return Some(How::Rpath(place + 1));
                }
                Some(How::Environment)
            }
            How::Environment => Some(How::Runpath),
            How::Runpath => Some(How::Cache),
            How::Cache => Some(How::Conf),
            How::Conf => Some(How::Default),
        }
    }

    // A list of directories with all subdirectories.
    fn directories(
        &self,
        how: How,
        text: &'s [u8],
        separators: &'s [u8],
        values: TokenValues<'s>,
    ) -> SearchList<'s>
        ensures { list_parts result ≡ directories (asked_parts self.now) how text.now separators.now
            (values_of values.entry) }
    {
        SearchList {
            how,
            text,
            separators,
            values,
            is_path: false,
            is_plain: false,
            subdirectories: self.around.subdirectories,
            name: self.name,
        }
    }

    // A list of one path.
    fn one_path(&self, how: How, path: &'s [u8]) -> SearchList<'s>
        ensures { list_parts result ≡ one_path (asked_parts self.now) how path.now }
    {
        SearchList {
            how,
            text: path,
            separators: &[],
            values: self.around.program,
            is_path: true,
            is_plain: true,
            subdirectories: &[],
            name: self.name,
        }
    }

    // The list of the DT_RPATH of the object at a place in the chain.
    fn r_path_list(&self, place: usize) -> SearchList<'s>
        ensures { list_parts result ≡ r_path_list (asked_parts self.now) place }
    {
        let how = How::Rpath(place);
        match self.asker_at(place) {
            Some(asker) => self.directories(how, asker.r_path_text(), b":", asker.values),
            None => self.directories(how, &[], b":", self.around.program),
        }
    }

    // The list of the DT_RUNPATH of the object that asks.
    fn run_path_list(&self) -> SearchList<'s>
        ensures { list_parts result ≡ run_path_list (asked_parts self.now) }
    {
        match self.asker_at(0) {
            Some(asker) => {
                let text = asker.run_path_text();
                self.directories(How::Runpath, text, b":", asker.values)
            }
            None => self.directories(How::Runpath, &[], b":", self.around.program),
        }
    }

    // The list of the cache: its path for the name, if that may be taken.
    fn cache_list(&self) -> SearchList<'s>
        ensures { list_parts result ≡ cache_list (asked_parts self.now) }
    {
        let path = self.around.cache;
        if self.has_no_default() && is_under_default(self.around.defaults, path) {
            return self.one_path(How::Cache, &[]);
        }
        self.one_path(How::Cache, path)
    }

    // The list of the directories of ld.so.conf, which have no subdirectories.
    fn conf_list(&self) -> SearchList<'s>
        ensures { list_parts result ≡ conf_list (asked_parts self.now) }
    {
        SearchList {
            how: How::Conf,
            text: self.around.conf,
            separators: b"\n",
            values: self.around.program,
            is_path: false,
            is_plain: true,
            subdirectories: &[],
            name: self.name,
        }
    }

    // The list of the default directories, if the object that asks wants them.
    fn default_list(&self) -> SearchList<'s>
        ensures { list_parts result ≡ default_list (asked_parts self.now) }
    {
        let program = self.around.program;
        if self.has_no_default() {
            return self.directories(How::Default, &[], b":", program);
        }
        self.directories(How::Default, self.around.defaults, b":", program)
    }

    // A list.
    fn list(&self, how: How) -> SearchList<'s>
        ensures { list_parts result ≡ list_of (asked_parts self.now) how }
    {
        match how {
            How::Itself => self.one_path(how, self.name),
            How::Rpath(place) => self.r_path_list(place),
            How::Environment => {
                self.directories(how, self.around.environment, b":;", self.around.program)
            }
            How::Runpath => self.run_path_list(),
            How::Cache => self.cache_list(),
            How::Conf => self.conf_list(),
            How::Default => self.default_list(),
        }
    }
}

impl<'s> Asker<'s> {
    // The text of its DT_RPATH, which is empty beside a DT_RUNPATH.
    fn r_path_text(&self) -> &'s [u8]
        ensures { result.now ≡ r_path_text (asker_parts self.now) }
    {
        if self.run_path.is_some() {
            return &[];
        }
        match self.r_path {
            Some(text) => text,
            None => &[],
        }
    }

    // The text of its DT_RUNPATH.
    fn run_path_text(&self) -> &'s [u8]
        ensures { result.now ≡ run_path_text (asker_parts self.now) }
    {
        match self.run_path {
            Some(text) => text,
            None => &[],
        }
    }
}

// Whether a path begins with a directory and a slash.
fn is_under(path: &[u8], directory: &[u8]) -> bool
    ensures { result ≡ is_under path.now directory.now }
{
    path.starts_with(directory) && path.len() > directory.len() && path[directory.len()] == b'/'
}

// Whether a path begins with a default directory and a slash.
#[tactic(auto, using(crate::proofs::ListSteps::under_hit, crate::proofs::ListSteps::under_more, crate::proofs::ListSteps::under_end, crate::proofs::ListSteps::under_last))]
fn is_under_default(defaults: &[u8], path: &[u8]) -> bool
    ensures { result ≡ is_under_default defaults.now path.now }
{
    let mut index = 0;
    loop {
        let Some(element) = element_at(defaults, b":", index) else {
            return false;
        };
        if is_under(path, element.bytes) {
            return true;
        }
        if element.is_last {
            return false;
        }
        index += 1;
    }
}

// The candidate at a place of a list, at whose element these bytes are.
#[tactic(auto, using(crate::proofs::ListSteps::candidate_slot, crate::proofs::ListSteps::candidate_past))]
fn candidate_at<'s>(list: &SearchList<'s>, element: &'s [u8], place: Place) -> Option<Candidate<'s>>
    ensures value { option_map candidate_parts result
        ≡ candidate_at (list_parts list.now) element.now place.element place.subdirectory }
    ensures below { IfSome result (λ _. place.subdirectory + 1 < 2 ^ 64) }
{
    let Some(subdirectory) = list.subdirectory_at(place.subdirectory) else {
        return None;
    };
    if list.keeps(place.element, element) {
        return Some(Candidate::of(list, element, subdirectory));
    }
    None
}

// The next candidate of a list from a place on, which is then behind it.
#[tactic(auto, using(crate::proofs::ListSteps::step_some, crate::proofs::ListSteps::step_more, crate::proofs::ListSteps::step_last, crate::proofs::ListSteps::step_end))]
fn next_in_list<'s>(list: &SearchList<'s>, place: &mut Place) -> Option<Candidate<'s>>
    ensures { MatchOption result (rest_of_list (list_parts list.now) place.old ≡ [])
        (λ candidate. rest_of_list (list_parts list.now) place.old
        ≡ candidate_parts candidate ∷ rest_of_list (list_parts list.now) place.new) }
{
    loop {
        let element = element_at(list.text, list.separators, place.element)?;
        if let Some(candidate) = candidate_at(list, element.bytes, *place) {
            place.subdirectory += 1;
            return Some(candidate);
        }
        if element.is_last {
            return None;
        }
        place.element += 1;
        place.subdirectory = 0;
    }
}

impl<'s> Candidates<'s> {
    /// The candidates for a name that is asked for by the first object of a chain, whose last is the
    /// program and in which each object is followed by the one that had it loaded.
    ///
    /// A name with a slash has one candidate, itself. Otherwise these lists come in order: the
    /// DT_RPATH of each object of the chain, if the first has no DT_RUNPATH; LD_LIBRARY_PATH; the
    /// DT_RUNPATH of the first; the path of the cache; the directories of ld.so.conf; the default
    /// directories. An element of a list has a candidate for each subdirectory. It is left out if a
    /// value of its tokens is not known, and if an earlier element of the same list names the same
    /// directory: the cost of a list grows with the square of its length.
    #[tactic(auto, using(crate::proofs::ListSteps::left_first))]
    pub fn new(name: &'s [u8], chain: &'s [Asker<'s>], around: &Surroundings<'s>) -> Candidates<'s>
        ensures { candidates_left result
            ≡ all_candidates (searched name.now chain.now around.now) }
    {
        let asked = Asked {
            name,
            chain,
            around: *around,
        };
        Candidates {
            asked,
            how: Some(asked.first_how()),
            place: START,
        }
    }

    /// Leaves out what is left of the list of the last candidate.
    #[tactic(auto, using(crate::proofs::ListSteps::left_next))]
    pub fn leave_list(&mut self)
        ensures { candidates_left self.new ≡ later_candidates self.old }
    {
        self.how = match self.how {
            Some(how) => self.asked.next_how(how),
            None => None,
        };
        self.place = START;
    }
}

impl<'s> Iterator for Candidates<'s> {
    ghost use Rattle.std.specs.Iterator.{YieldsFirstBy, item_count};

    type Item = Candidate<'s>;

    ghost next_gives = { YieldsFirstBy candidate_parts candidates_left };

    ghost remaining = { item_count candidates_left };

    #[tactic(auto, using(crate::proofs::ListSteps::count_next, crate::proofs::ListSteps::left_next))]
    fn next(&mut self) -> Option<Candidate<'s>> {
        loop {
            let how = self.how?;
            let list = self.asked.list(how);
            if let Some(candidate) = next_in_list(&list, &mut self.place) {
                return Some(candidate);
            }
            self.how = self.asked.next_how(how);
            self.place = START;
        }
    }
}
