//! The paths at which the debug file of a file may be, in the order of gdb and elfutils.

ghost use Rattle.std.specs.Prelude.{◌≡◌, ◌<◌, [], option_map, unwrap_or};
ghost use Rattle.std.specs.Iterator.{YieldsFirst, item_count};
ghost use Rattle.elf_debug.specs.Paths.{all_paths, digit, first_by_link, folder_of, hex, hex_left, id_left};
ghost use Rattle.elf_debug.specs.Paths.{id_text, next_how, path_left, path_of, paths_left, places_of, way_parts};

/// How a debug file is found.
#[derive(Clone, Copy, Debug, PartialEq, Eq)]
pub enum DebugHow {
    /// By the build id: in `.build-id` of the directory, in a folder named after the first byte.
    BuildId,
    /// By the name in the link, in the folder of the file.
    Folder,
    /// By the name in the link, in `.debug` in the folder of the file.
    Subfolder,
    /// By the name in the link, under the directory in the same folder.
    Directory,
}

// The digit of a number in hexadecimal.
fn digit(value: u8) -> u8
    requires { value < 16 }
    ensures { result ≡ digit value }
{
    if value < 10 {
        return 48 + value;
    }
    87 + value
}

// Bytes in hexadecimal, two digits for each.
#[derive(Clone, Copy, Debug, Drop)]
pub(crate) struct HexBytes<'s> {
    bytes: &'s [u8],
    // Whether the first digit of the first byte was returned.
    is_low: bool,
}

impl<'s> HexBytes<'s> {
    // All digits of some bytes.
    fn of(bytes: &'s [u8]) -> HexBytes<'s>
        ensures { hex_left result ≡ hex bytes.now }
    {
        HexBytes {
            bytes,
            is_low: false,
        }
    }
}

impl Iterator for HexBytes<'_> {
    type Item = u8;

    ghost next_gives = { YieldsFirst hex_left };

    ghost remaining = { item_count hex_left };

    fn next(&mut self) -> Option<u8> {
        let (byte, others) = self.bytes.split_first()?;
        if self.is_low {
            self.is_low = false;
            self.bytes = others;
            return Some(digit(*byte % 16));
        }
        self.is_low = true;
        Some(digit(*byte / 16))
    }
}

// The first byte of a build id in hexadecimal, a slash, and the other bytes.
#[derive(Clone, Copy, Debug, Drop)]
pub(crate) struct IdBytes<'s> {
    first: HexBytes<'s>,
    slash: &'s [u8],
    others: HexBytes<'s>,
}

impl<'s> IdBytes<'s> {
    // Those of a build id.
    fn of(id: &'s [u8]) -> IdBytes<'s>
        ensures { id_left result ≡ id_text id.now }
    {
        let (first, others) = id.split_at(id.len().min(1));
        IdBytes {
            first: HexBytes::of(first),
            slash: b"/",
            others: HexBytes::of(others),
        }
    }

    // No bytes.
    fn none() -> IdBytes<'s>
        ensures { id_left result ≡ [] }
    {
        IdBytes {
            first: HexBytes::of(&[]),
            slash: &[],
            others: HexBytes::of(&[]),
        }
    }
}

impl Iterator for IdBytes<'_> {
    type Item = u8;

    ghost next_gives = { YieldsFirst id_left };

    ghost remaining = { item_count id_left };

    fn next(&mut self) -> Option<u8> {
        if let Some(byte) = self.first.next() {
            return Some(byte);
        }
        if let Some((byte, rest)) = self.slash.split_first() {
            self.slash = rest;
            return Some(*byte);
        }
        let byte = self.others.next()?;
        Some(byte)
    }
}

/// The bytes of a path, in order.
#[derive(Clone, Copy, Debug, Drop)]
pub struct DebugPathBytes<'s> {
    front: &'s [u8],
    middle: &'s [u8],
    id: IdBytes<'s>,
    name: &'s [u8],
}

impl Iterator for DebugPathBytes<'_> {
    type Item = u8;

    ghost next_gives = { YieldsFirst path_left };

    ghost remaining = { item_count path_left };

    fn next(&mut self) -> Option<u8> {
        if let Some((byte, rest)) = self.front.split_first() {
            self.front = rest;
            return Some(*byte);
        }
        if let Some((byte, rest)) = self.middle.split_first() {
            self.middle = rest;
            return Some(*byte);
        }
        if let Some(byte) = self.id.next() {
            return Some(byte);
        }
        let (byte, rest) = self.name.split_first()?;
        self.name = rest;
        Some(*byte)
    }
}

/// A path at which a debug file may be, and how it is found.
#[derive(Clone, Copy, Debug, Drop)]
pub struct DebugPath<'s> {
    /// How the file is found.
    pub how: DebugHow,
    /// The bytes of its path.
    pub path: DebugPathBytes<'s>,
}

/// The paths at which a debug file may be, in order.
#[derive(Clone, Copy, Debug, Drop)]
pub struct DebugPaths<'s> {
    id: &'s [u8],
    has_link: bool,
    name: &'s [u8],
    folder: &'s [u8],
    directory: &'s [u8],
    next: Option<DebugHow>,
}

// The folder of a path: all up to its last slash, or nothing.
#[tactic(auto, using(crate::proofs::Folders::folder_end, crate::proofs::Folders::folder_here, crate::proofs::Folders::folder_before))]
fn folder_of(path: &[u8]) -> &[u8]
    ensures { result.now ≡ folder_of path.now }
{
    let mut rest = path;
    while let Some((last, front)) = rest.split_last() {
        if *last == b'/' {
            return rest;
        }
        rest = front;
    }
    rest
}

/// The paths at which the debug file of the file at a path may be: by its build id in a directory,
/// then by the name in its `.gnu_debuglink`.
///
/// A build id of fewer than two bytes gives none. A path without a slash at its start has no
/// candidate in the same folder under the directory.
pub fn debug_paths<'s>(
    id: Option<&'s [u8]>,
    link: Option<&'s [u8]>,
    path: &'s [u8],
    directory: &'s [u8],
) -> DebugPaths<'s>
    ensures { paths_left result ≡ all_paths (option_map (λ bytes. bytes.now) id.entry)
        (option_map (λ bytes. bytes.now) link.entry) path.now directory.now }
{
    let id = or_nothing(id);
    let has_link = link.is_some();
    let name = or_nothing(link);
    let folder = folder_of(path);
    let next = if id.len() > 1 {
        Some(DebugHow::BuildId)
    } else {
        first_by_link(has_link)
    };
    DebugPaths {
        id,
        has_link,
        name,
        folder,
        directory,
        next,
    }
}

// The first way by a link.
fn first_by_link(has_link: bool) -> Option<DebugHow>
    ensures { result ≡ first_by_link has_link }
{
    if has_link {
        return Some(DebugHow::Folder);
    }
    None
}

// The bytes, or none.
fn or_nothing(bytes: Option<&[u8]>) -> &[u8]
    ensures { result.now ≡ unwrap_or (option_map (λ one. one.now) bytes.entry) [] }
{
    match bytes {
        Some(bytes) => bytes,
        None => &[],
    }
}

impl<'s> DebugPaths<'s> {
    // The way after one.
    fn next_how(&self, how: DebugHow) -> Option<DebugHow>
        ensures { result ≡ next_how (places_of self.now) how }
    {
        match how {
            DebugHow::BuildId => first_by_link(self.has_link),
            DebugHow::Folder => Some(DebugHow::Subfolder),
            DebugHow::Subfolder => {
                if self.folder.starts_with(b"/") {
                    return Some(DebugHow::Directory);
                }
                None
            }
            DebugHow::Directory => None,
        }
    }

    // The bytes of the path by a way.
    fn path(&self, how: DebugHow) -> DebugPathBytes<'s>
        ensures { path_left result ≡ path_of (places_of self.now) how }
    {
        let none = IdBytes::none();
        let (front, middle, id, name): (&'s [u8], &'s [u8], IdBytes<'s>, &'s [u8]) = match how {
            DebugHow::BuildId => (
                self.directory,
                b"/.build-id/",
                IdBytes::of(self.id),
                b".debug",
            ),
            DebugHow::Folder => (self.folder, &[], none, self.name),
            DebugHow::Subfolder => (self.folder, b".debug/", none, self.name),
            DebugHow::Directory => (self.directory, self.folder, none, self.name),
        };
        DebugPathBytes {
            front,
            middle,
            id,
            name,
        }
    }
}

impl<'s> Iterator for DebugPaths<'s> {
    ghost use Rattle.std.specs.Iterator.{YieldsFirstBy, item_count};

    type Item = DebugPath<'s>;

    ghost next_gives = { YieldsFirstBy way_parts paths_left };

    ghost remaining = { item_count paths_left };

    fn next(&mut self) -> Option<DebugPath<'s>> {
        let how = self.next?;
        let path = self.path(how);
        self.next = self.next_how(how);
        Some(DebugPath { how, path })
    }
}
