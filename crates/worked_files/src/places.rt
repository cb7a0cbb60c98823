//! Where the fields of headers and symbols lie (gABI, "ELF Header", "Sections", "Program Header",
//! "Symbol Table").

use xmas_elf::bytes::Order;

/// A field: its place in bytes from the start of its header, and its width in bytes.
#[derive(Clone, Copy)]
pub struct Place(pub usize, pub usize);

/// A word of four bytes.
pub const WORD: Place = Place(0, 4);

/// The ELF header of class 32.
pub mod header_32 {
    use super::Place;

    pub const TYPE: Place = Place(16, 2);

    pub const MACHINE: Place = Place(18, 2);

    pub const PH_OFFSET: Place = Place(28, 4);

    pub const SH_OFFSET: Place = Place(32, 4);

    pub const HEADER_SIZE: Place = Place(40, 2);

    pub const PH_ENTRY_SIZE: Place = Place(42, 2);

    pub const PH_COUNT: Place = Place(44, 2);

    pub const SH_ENTRY_SIZE: Place = Place(46, 2);

    pub const SH_COUNT: Place = Place(48, 2);

    pub const SH_STR_INDEX: Place = Place(50, 2);
}

/// The ELF header of class 64.
pub mod header_64 {
    use super::Place;

    pub const TYPE: Place = Place(16, 2);

    pub const MACHINE: Place = Place(18, 2);

    pub const ENTRY_POINT: Place = Place(24, 8);

    pub const PH_OFFSET: Place = Place(32, 8);

    pub const SH_OFFSET: Place = Place(40, 8);

    pub const HEADER_SIZE: Place = Place(52, 2);

    pub const PH_ENTRY_SIZE: Place = Place(54, 2);

    pub const PH_COUNT: Place = Place(56, 2);

    pub const SH_ENTRY_SIZE: Place = Place(58, 2);

    pub const SH_COUNT: Place = Place(60, 2);

    pub const SH_STR_INDEX: Place = Place(62, 2);
}

/// A section header of class 32.
pub mod section_32 {
    use super::Place;

    pub const NAME: Place = Place(0, 4);

    pub const TYPE: Place = Place(4, 4);

    pub const OFFSET: Place = Place(16, 4);

    pub const SIZE: Place = Place(20, 4);

    pub const LINK: Place = Place(24, 4);

    pub const ALIGN: Place = Place(32, 4);
}

/// A section header of class 64.
pub mod section_64 {
    use super::Place;

    pub const NAME: Place = Place(0, 4);

    pub const TYPE: Place = Place(4, 4);

    pub const FLAGS: Place = Place(8, 8);

    pub const ADDRESS: Place = Place(16, 8);

    pub const OFFSET: Place = Place(24, 8);

    pub const SIZE: Place = Place(32, 8);

    pub const LINK: Place = Place(40, 4);

    pub const INFO: Place = Place(44, 4);
}

/// A program header of class 32.
pub mod program_32 {
    use super::Place;

    pub const TYPE: Place = Place(0, 4);

    pub const OFFSET: Place = Place(4, 4);

    pub const VIRTUAL_ADDR: Place = Place(8, 4);

    pub const PHYSICAL_ADDR: Place = Place(12, 4);

    pub const FILE_SIZE: Place = Place(16, 4);

    pub const MEM_SIZE: Place = Place(20, 4);

    pub const FLAGS: Place = Place(24, 4);

    pub const ALIGN: Place = Place(28, 4);
}

/// A program header of class 64.
pub mod program_64 {
    use super::Place;

    pub const TYPE: Place = Place(0, 4);

    pub const FLAGS: Place = Place(4, 4);

    pub const OFFSET: Place = Place(8, 8);

    pub const VIRTUAL_ADDR: Place = Place(16, 8);

    pub const PHYSICAL_ADDR: Place = Place(24, 8);

    pub const FILE_SIZE: Place = Place(32, 8);

    pub const MEM_SIZE: Place = Place(40, 8);

    pub const ALIGN: Place = Place(48, 8);
}

/// A symbol of class 32.
pub mod symbol_32 {
    use super::Place;

    pub const NAME: Place = Place(0, 4);

    pub const VALUE: Place = Place(4, 4);

    pub const SIZE: Place = Place(8, 4);

    pub const INFO: Place = Place(12, 1);

    pub const OTHER: Place = Place(13, 1);

    pub const SHNDX: Place = Place(14, 2);
}

/// A symbol of class 64.
pub mod symbol_64 {
    use super::Place;

    pub const NAME: Place = Place(0, 4);

    pub const INFO: Place = Place(4, 1);

    pub const OTHER: Place = Place(5, 1);

    pub const SHNDX: Place = Place(6, 2);

    pub const VALUE: Place = Place(8, 8);

    pub const SIZE: Place = Place(16, 8);
}

/// Writes a number into the field of the header that begins at `start`,
/// as far as it lies in the file.
pub fn set(file: &mut [u8], start: usize, place: Place, number: u64, order: Order) {
    let mut rest = number;
    for k in 0..place.1 {
        let from_start = match order {
            Order::Little => k,
            Order::Big => place.1 - 1 - k,
        };
        let at = start.wrapping_add(place.0).wrapping_add(from_start);
        if let Some(byte) = file.get_mut(at) {
            *byte = (rest % 256) as u8;
        }
        rest /= 256;
    }
}

/// Writes bytes into the file from a place on, as far as they lie in it.
pub fn put(file: &mut [u8], start: usize, bytes: &[u8]) {
    for (k, byte) in bytes.iter().enumerate() {
        if let Some(at) = file.get_mut(start.wrapping_add(k)) {
            *at = *byte;
        }
    }
}
