//! The paths at which a library is looked for, and the path that a cache has for it (`ld.so`'s manual page).

ghost use Rattle.std.specs.Prelude.{◌≡◌, ◌≤◌, List, Result, ℕ, length, map, option_map, take};
ghost use Rattle.elf_c.specs.Batch.{Fills, Stores};
ghost use Rattle.elf_c.specs.SearchPaths.{FindsPath, IsCurrent, asker_of, candidate_record, candidate_rows};
ghost use Rattle.elf_c.specs.SearchPaths.{candidate_texts, expanded_text, how_asker, how_number, item_of};
ghost use Rattle.elf_c.specs.SearchPaths.{known_value, machine_of, path_bytes, run_path_of, search_of};
ghost use Rattle.elf_c.specs.SearchPaths.{text_left, values_by};
ghost use Rattle.elf_c.specs.declared.status.AnyError.{AnyError};
ghost use Rattle.elf_search.specs.Candidates.{all_candidates, asker_parts, candidates_left, searched};
ghost use Rattle.elf_search.specs.Lists.{candidate_parts, candidate_path};
ghost use Rattle.elf_search.specs.Tokens.{expanded_left, values_of};
ghost use Rattle.elf_search.specs.declared.candidates.Asker.{Asker};

use crate::batch::{Sequence, fill_in_order};
use crate::load_objects::MOST_OBJECTS;
use crate::status::{AnyError, give};
use elf_search::cache::{Cache, Machine};
use elf_search::candidates::{Asker, Candidate, Candidates, How, Surroundings};
use elf_search::tokens::{Expanded, TokenValues, expand, is_known};
use elf_search::{PathBytes, SearchError};

/// The name contains a slash, and is the path.
pub const BY_PATH: u32 = 1;
/// By the DT_RPATH of an object of the chain.
pub const BY_RPATH: u32 = 2;
/// By LD_LIBRARY_PATH.
pub const BY_LIBRARY_PATH: u32 = 3;
/// By the DT_RUNPATH of the object that asks.
pub const BY_RUNPATH: u32 = 4;
/// By the cache.
pub const BY_CACHE: u32 = 5;
/// By the directories of ld.so.conf.
pub const BY_CONF: u32 = 6;
/// By the default directories.
pub const BY_DEFAULT: u32 = 7;

/// The values of the dynamic string tokens for an object. An empty value is not known.
#[repr(C)]
#[derive(Clone, Copy, Debug)]
pub struct Tokens<'s> {
    /// The directory of the object (`$ORIGIN`).
    pub origin: &'s [u8],
    /// The directory of libraries for the machine (`$LIB`).
    pub lib: &'s [u8],
    /// The kind of the processor (`$PLATFORM`).
    pub platform: &'s [u8],
}

/// What an object says about the search for libraries.
#[repr(C)]
#[derive(Clone, Copy, Debug)]
pub struct SearchAsker<'s> {
    /// The search path of its last DT_RPATH; empty if it has none.
    pub r_path: &'s [u8],
    /// The search path of its last DT_RUNPATH.
    pub run_path: &'s [u8],
    /// The values of its tokens.
    pub tokens: Tokens<'s>,
    /// 1 if it has a DT_RUNPATH, even an empty one: its DT_RPATH then does not count.
    pub has_run_path: u32,
    /// 1 if it has the flag DF_1_NODEFLIB.
    pub no_default: u32,
}

/// What a search depends on, apart from the objects that ask.
#[repr(C)]
#[derive(Clone, Copy, Debug)]
pub struct SearchFor<'s> {
    /// The name that is looked for, with its tokens replaced.
    pub name: &'s [u8],
    /// The value of LD_LIBRARY_PATH.
    pub library_path: &'s [u8],
    /// The path that the cache has for the name; empty if it has none.
    pub cache: &'s [u8],
    /// The directories of ld.so.conf, one in each line, where there is no cache.
    pub conf: &'s [u8],
    /// The default directories, with colons between them.
    pub defaults: &'s [u8],
    /// The subdirectories of each directory that are tried, each with a slash at its end; the last is
    /// empty.
    pub subdirectories: &'s [&'s [u8]],
    /// The values of the tokens for the program.
    pub program: Tokens<'s>,
}

/// A path at which a library is looked for, as numbers.
#[repr(C)]
#[derive(Clone, Copy, Debug)]
pub struct CandidatePath {
    /// By which list: `BY_PATH` to `BY_DEFAULT`.
    pub how: u32,
    /// For `BY_RPATH` the index of the object in the chain, otherwise 0.
    pub asker: u64,
    /// The number of bytes of its subdirectory; 0 for the directory itself.
    pub subdirectory_size: u64,
}

/// What a machine can use of a cache.
#[repr(C)]
#[derive(Clone, Copy, Debug)]
pub struct CacheMachine<'s> {
    /// The active names of subdirectories of `glibc-hwcaps`, the best first.
    pub names: &'s [&'s [u8]],
    /// The capabilities that it has, other than platforms.
    pub bits: u64,
    /// The bit of its platform, 0 if it has none.
    pub platform: u64,
    /// The flags of its entries.
    pub flags: u32,
    /// Other flags that it takes.
    pub other_flags: u32,
    /// The levels that it has, level k as bit k.
    pub levels: u32,
}

// A value of a token, if it is known.
fn known_value(value: &[u8]) -> Option<&[u8]>
    ensures { option_map (λ known. known.now) result ≡ known_value value.now }
{
    if value.is_empty() { None } else { Some(value) }
}

// The values of tokens.
fn values_by<'s>(tokens: &Tokens<'s>) -> TokenValues<'s>
    ensures { values_of result ≡ values_by tokens.now }
{
    TokenValues {
        origin: known_value(tokens.origin),
        lib: known_value(tokens.lib),
        platform: known_value(tokens.platform),
    }
}

// The bytes of an expanded text that are left.
#[derive(Drop)]
struct ExpandedText<'s> {
    bytes: Expanded<'s>,
}

impl Sequence for ExpandedText<'_> {
    type Record = u8;

    ghost left = { λ text. expanded_left text.bytes };

    fn next(&mut self) -> Option<u8> {
        let byte = self.bytes.next()?;
        Some(byte)
    }
}

// Stores the bytes of a text with its tokens replaced in `out`, and returns their number.
fn fill_expanded(
    text: &[u8],
    tokens: &Tokens<'_>,
    first: u64,
    out: &mut [u8],
) -> Result<u64, AnyError>
    ensures { Fills (item_of (expanded_text (values_by tokens.now) text.now)) first out.old result out.new }
{
    let values = values_by(tokens);
    if !is_known(text, &values) {
        return Err(AnyError::Search(SearchError::EmptyToken));
    }
    let bytes = expand(text, &values);
    fill_in_order(ExpandedText { bytes }, first, out)
}

/// The bytes of a text with its dynamic string tokens replaced by their values, from index `first` on: as
/// many as fit in `out`, or all. `count` is set to their number; the rest of `out` is unchanged. They are
/// those of `elf_search::tokens::expand`. Errors: `EmptyToken` if a value is not known; `NoRecord` if there
/// are no more than `first`.
#[unsafe(no_mangle)]
pub extern "C" fn xmas_elf_expand(
    text: &[u8],
    tokens: &Tokens<'_>,
    first: u64,
    out: &mut [u8],
    count: &mut u64,
) -> u32
    ensures { Stores (item_of (expanded_text (values_by tokens.now) text.now))
        first out.old out.new count.old result count.new }
{
    give(fill_expanded(text, tokens, first, out), count)
}

// The same bytes. If there are none, C may have given no address, with which they would be no value.
#[tactic(auto, using(crate::proofs::SearchPaths::no_bytes))]
fn with_address(bytes: &[u8]) -> &[u8]
    ensures { result.now ≡ bytes.now }
{
    if bytes.is_empty() { &[] } else { bytes }
}

// The DT_RUNPATH of an object.
fn run_path_of<'s>(asker: &SearchAsker<'s>) -> Option<&'s [u8]>
    ensures { option_map (λ text. text.now) result ≡ run_path_of asker.now }
{
    if asker.has_run_path == 1 {
        return Some(with_address(asker.run_path));
    }
    None
}

// What an object says about the search.
fn asker_of<'s>(asker: &SearchAsker<'s>) -> Asker<'s>
    ensures { asker_parts result ≡ asker_of asker.now }
{
    Asker {
        r_path: Some(asker.r_path),
        run_path: run_path_of(asker),
        values: values_by(&asker.tokens),
        no_default: asker.no_default == 1,
    }
}

// An object that says nothing about the search.
const NO_ASKER: Asker<'static> = Asker {
    r_path: None,
    run_path: None,
    values: TokenValues {
        origin: None,
        lib: None,
        platform: None,
    },
    no_default: false,
};

// What objects say about the search, in a room for the most.
fn chain_of<'s>(askers: &[SearchAsker<'s>]) -> [Asker<'s>; MOST_OBJECTS]
    requires { length askers.now ≤ MOST_OBJECTS }
    ensures { map asker_parts (take (length askers.now) result) ≡ map asker_of askers.now }
{
    let mut chain = [NO_ASKER; MOST_OBJECTS];
    for index in 0..askers.len() {
        chain[index] = asker_of(&askers[index]);
    }
    chain
}

// What a search depends on.
fn surroundings_of<'s>(search: &SearchFor<'s>) -> Surroundings<'s>
    ensures { (chain : List Asker) → searched search.now.name.now chain result
        ≡ search_of search.now (map asker_parts chain) }
{
    Surroundings {
        environment: search.library_path,
        program: values_by(&search.program),
        cache: search.cache,
        conf: search.conf,
        defaults: search.defaults,
        subdirectories: search.subdirectories,
    }
}

// By which list a candidate is found, as a number.
fn how_number(how: How) -> u32
    ensures { result ≡ how_number how }
{
    match how {
        How::Itself => BY_PATH,
        How::Rpath(_) => BY_RPATH,
        How::Environment => BY_LIBRARY_PATH,
        How::Runpath => BY_RUNPATH,
        How::Cache => BY_CACHE,
        How::Conf => BY_CONF,
        How::Default => BY_DEFAULT,
    }
}

// The index in the chain of the object whose DT_RPATH a list is.
fn how_asker(how: How) -> u64
    ensures { result ≡ how_asker how }
{
    match how {
        How::Rpath(asker) => asker as u64,
        _ => 0,
    }
}

// A candidate as numbers.
fn candidate_record(candidate: &Candidate<'_>) -> CandidatePath
    ensures { result ≡ candidate_record (candidate_parts candidate.now) }
{
    CandidatePath {
        how: how_number(candidate.how()),
        asker: how_asker(candidate.how()),
        subdirectory_size: candidate.subdirectory().len() as u64,
    }
}

// The candidates for a name that is asked for by the first object of a chain.
fn candidates_for<'s>(search: &SearchFor<'s>, chain: &'s [Asker<'s>]) -> Candidates<'s>
    ensures { candidates_left result
        ≡ all_candidates (search_of search.now (map asker_parts chain.now)) }
{
    Candidates::new(search.name, chain, &surroundings_of(search))
}

// The candidates that are left.
#[derive(Drop)]
struct CandidateList<'s> {
    candidates: Candidates<'s>,
}

impl Sequence for CandidateList<'_> {
    type Record = CandidatePath;

    ghost left = { λ list. map candidate_record (candidates_left list.candidates) };

    fn next(&mut self) -> Option<CandidatePath> {
        let candidate = self.candidates.next()?;
        Some(candidate_record(&candidate))
    }
}

// Stores the candidates for a name from an index on in `out`, and returns their number.
fn fill_candidates<'s>(
    search: &'s SearchFor<'s>,
    askers: &'s [SearchAsker<'s>],
    first: u64,
    out: &mut [CandidatePath],
) -> Result<u64, AnyError>
    ensures { Fills (item_of (candidate_rows search.now askers.now)) first out.old result out.new }
{
    if askers.len() > MOST_OBJECTS {
        return Err(AnyError::ManyObjects);
    }
    let chain = chain_of(askers);
    let candidates = candidates_for(search, &chain[..askers.len()]);
    fill_in_order(CandidateList { candidates }, first, out)
}

/// The paths at which a library is looked for, in order, from index `first` on: as many as fit in `out`, or
/// all. `count` is set to their number; the rest of `out` is unchanged. They are those of
/// `elf_search::candidates::Candidates` for the first of `askers`, of which each is followed by the object
/// that had it loaded, up to the program. One without a DT_RPATH other than the first may be left out.
/// `xmas_elf_candidate_paths` has their texts. A list is left by going on to the first with another `how`
/// or `asker`.
///
/// Each call goes through the candidates from the first on, and the cost of a list grows with the square
/// of its length. Errors: `ManyObjects` if there are more than 64 of `askers`; `NoRecord` if there are no
/// more than `first`.
#[unsafe(no_mangle)]
pub extern "C" fn xmas_elf_candidates(
    search: &SearchFor<'_>,
    askers: &[SearchAsker<'_>],
    first: u64,
    out: &mut [CandidatePath],
    count: &mut u64,
) -> u32
    ensures { Stores (item_of (candidate_rows search.now askers.now))
        first out.old out.new count.old result count.new }
{
    give(fill_candidates(search, askers, first, out), count)
}

// The texts of the paths that are left, with a zero after each.
#[derive(Drop)]
struct PathTexts<'s> {
    candidates: Candidates<'s>,
    // What is left of the current one; `None` behind its zero.
    path: Option<PathBytes<'s>>,
}

impl Sequence for PathTexts<'_> {
    type Record = u8;

    ghost left = { λ texts.
        text_left texts.path (map candidate_path (candidates_left texts.candidates)) };

    #[tactic(auto, using(crate::proofs::SearchPaths::path_byte, crate::proofs::SearchPaths::path_end))]
    fn next(&mut self) -> Option<u8> {
        let mut path = self.current()?;
        match path.next() {
            Some(byte) => {
                self.path = Some(path);
                Some(byte)
            }
            None => {
                self.path = None;
                Some(0)
            }
        }
    }
}

impl<'s> PathTexts<'s> {
    // What is left of the current path, or else the next one.
    fn current(&mut self) -> Option<PathBytes<'s>>
        ensures { IsCurrent self.old.path (map candidate_path (candidates_left self.old.candidates)) result
            self.new.path (map candidate_path (candidates_left self.new.candidates)) }
    {
        match self.path {
            Some(path) => Some(path),
            None => {
                let candidate = self.candidates.next()?;
                Some(candidate.path())
            }
        }
    }
}

// Stores the bytes of the texts of the candidates for a name from an index on in `out`, and returns their
// number.
fn fill_paths<'s>(
    search: &'s SearchFor<'s>,
    askers: &'s [SearchAsker<'s>],
    first: u64,
    out: &mut [u8],
) -> Result<u64, AnyError>
    ensures { Fills (item_of (candidate_texts search.now askers.now)) first out.old result out.new }
{
    if askers.len() > MOST_OBJECTS {
        return Err(AnyError::ManyObjects);
    }
    let chain = chain_of(askers);
    let texts = PathTexts {
        candidates: candidates_for(search, &chain[..askers.len()]),
        path: None,
    };
    fill_in_order(texts, first, out)
}

/// The texts of the paths of `xmas_elf_candidates` one after another, each with a zero byte after it, from
/// byte `first` of all on: as many bytes as fit in `out`, or all. `count` is set to their number; the rest
/// of `out` is unchanged. Costs and errors are those of that call.
#[unsafe(no_mangle)]
pub extern "C" fn xmas_elf_candidate_paths(
    search: &SearchFor<'_>,
    askers: &[SearchAsker<'_>],
    first: u64,
    out: &mut [u8],
    count: &mut u64,
) -> u32
    ensures { Stores (item_of (candidate_texts search.now askers.now))
        first out.old out.new count.old result count.new }
{
    give(fill_paths(search, askers, first, out), count)
}

// What a machine can use of a cache.
fn machine_of<'s>(machine: &CacheMachine<'s>) -> Machine<'s>
    ensures { result ≡ machine_of machine.now }
{
    Machine {
        flags: machine.flags,
        other_flags: machine.other_flags,
        levels: machine.levels,
        bits: machine.bits,
        platform: machine.platform,
        names: machine.names,
    }
}

// The path that a cache has for a name.
fn cached_path<'c>(
    bytes: &'c [u8],
    name: &[u8],
    machine: &Machine<'_>,
) -> Result<&'c [u8], AnyError>
    ensures { FindsPath bytes.now name.now machine.now (path_bytes result) }
{
    let cache = match Cache::read(bytes) {
        Ok(cache) => cache,
        Err(error) => return Err(AnyError::Search(error)),
    };
    match cache.look_up(name, machine) {
        Some(path) => Ok(path),
        None => Err(AnyError::NotFound),
    }
}

// Bytes that are left.
#[derive(Drop)]
struct BytesLeft<'b> {
    bytes: &'b [u8],
}

impl Sequence for BytesLeft<'_> {
    type Record = u8;

    ghost left = { λ left. left.bytes.now };

    fn next(&mut self) -> Option<u8> {
        let (byte, others) = self.bytes.split_first()?;
        self.bytes = others;
        Some(*byte)
    }
}

// Stores the bytes of a path from an index on in `out`, and returns their number.
fn fill_bytes(found: Result<&[u8], AnyError>, first: u64, out: &mut [u8]) -> Result<u64, AnyError>
    ensures { Fills (item_of (path_bytes found.entry)) first out.old result out.new }
{
    fill_in_order(BytesLeft { bytes: found? }, first, out)
}

/// The path of the library that a machine gets for a name from the cache of these bytes (`ld.so.cache`),
/// from its byte `first` on: as many bytes as fit in `out`, or all. `count` is set to their number; the
/// rest of `out` is unchanged. It is that of `elf_search::cache::Cache::look_up`, whose cost it has.
/// Errors: those of `elf_search::cache::Cache::read`; `NotFound` if it has none; `NoRecord` if the path has
/// no more than `first` bytes.
#[unsafe(no_mangle)]
pub extern "C" fn xmas_elf_cache_path(
    cache: &[u8],
    name: &[u8],
    machine: &CacheMachine<'_>,
    first: u64,
    out: &mut [u8],
    count: &mut u64,
) -> u32
    ensures { (path : Result (List ℕ) AnyError)
        × FindsPath cache.now name.now (machine_of machine.now) path
        × Stores (item_of path) first out.old out.new count.old result count.new }
{
    let found = cached_path(cache, name, &machine_of(machine));
    give(fill_bytes(found, first, out), count)
}
