//! What the processor of this system has of the features for which there are libraries of their own
//! (x86-64 psABI, "Microarchitecture levels"; the platform `haswell` of glibc).

use std::alloc::{AllocError, Global};
use std::fs::File;
use std::io::Read;

/// What the processor of this system has. Without a processor all is as on the oldest one.
#[derive(Clone, Copy, Debug, Drop)]
pub(crate) struct Processor {
    /// The level of the psABI, from 1 to 4; 0 if libraries for processors aren't looked for.
    pub level: u32,
    /// Whether the platform is `haswell`.
    pub is_haswell: bool,
    /// Whether it has the part of AVX-512 for which glibc has a subdirectory.
    pub has_avx512: bool,
    /// Whether its programs are those of 32-bit x86.
    pub is_386: bool,
}

/// A processor of which nothing is known.
pub(crate) const UNKNOWN: Processor = Processor {
    level: 0,
    is_haswell: false,
    has_avx512: false,
    is_386: false,
};

// The features of the levels 2 to 4, as Linux names them.
const LEVELS: [&[&str]; 3] = [
    &[
        "cx16", "lahf_lm", "popcnt", "pni", "sse4_1", "sse4_2", "ssse3",
    ],
    &["avx", "avx2", "bmi1", "bmi2", "f16c", "fma", "abm", "movbe"],
    &["avx512f", "avx512bw", "avx512cd", "avx512dq", "avx512vl"],
];

const HASWELL: &[&str] = &["avx2", "bmi1", "bmi2", "abm", "movbe", "popcnt"];

const AVX512: &[&str] = &["avx512cd", "avx512bw", "avx512dq", "avx512vl"];

/// The processor of this system, by the first of those that `/proc/cpuinfo` lists.
pub(crate) fn own_processor(rt: &HostRuntime) -> Processor {
    let mut buffer = [0u8; 4096];
    let Ok(mut file) = File::open(rt, "/proc/cpuinfo") else {
        return UNKNOWN;
    };
    let Ok(count) = file.read(&mut buffer) else {
        return UNKNOWN;
    };
    processor_in(buffer.get(..count).unwrap_or(&[]))
}

// The processor that a text lists first.
fn processor_in(text: &[u8]) -> Processor {
    let Some(flags) = value_of(text, b"flags") else {
        return UNKNOWN;
    };
    let is_intel = value_of(text, b"vendor_id") == Some(b"GenuineIntel".as_slice());
    Processor {
        level: level_of(flags),
        is_haswell: is_intel && has_all(flags, HASWELL),
        has_avx512: is_intel && has_all(flags, AVX512) && !has(flags, b"avx512er"),
        is_386: false,
    }
}

// What is behind the colon in the first line that begins with a name.
fn value_of<'t>(text: &'t [u8], name: &[u8]) -> Option<&'t [u8]> {
    let line = text
        .split(|byte| *byte == b'\n')
        .find(|line| line.starts_with(name))?;
    let colon = line.iter().position(|byte| *byte == b':')?;
    Some(line.get(colon.saturating_add(2)..).unwrap_or(&[]))
}

fn has(flags: &[u8], name: &[u8]) -> bool {
    flags.split(|byte| *byte == b' ').any(|flag| flag == name)
}

fn has_all(flags: &[u8], names: &[&str]) -> bool {
    names.iter().all(|name| has(flags, name.as_bytes()))
}

// The highest level of which it has all features, and those of the lower ones.
fn level_of(flags: &[u8]) -> u32 {
    let mut level: u32 = 1;
    for names in LEVELS {
        if !has_all(flags, names) {
            return level;
        }
        level = level.saturating_add(1);
    }
    level
}

impl Processor {
    /// What programs of a class and a machine have of it, a processor of x86-64. Of a program of 32-bit x86 the
    /// platform is `i686`, and no level counts.
    pub fn for_programs(self, class: u8, machine: u16) -> Processor {
        match (class, machine) {
            (2, 62) => self,
            (1, 3) => Processor {
                level: self.level.min(1),
                is_386: true,
                ..UNKNOWN
            },
            _ => UNKNOWN,
        }
    }

    /// The value of `$PLATFORM`, if it is not that of all processors of the machine.
    pub fn platform(&self) -> Option<&'static str> {
        if self.is_haswell {
            Some("haswell")
        } else {
            None
        }
    }

    /// The levels that it has, level k as bit k - 1.
    pub fn levels(&self) -> u32 {
        match self.level {
            4 => 0xf,
            3 => 7,
            2 => 3,
            _ => 1,
        }
    }

    /// The capabilities of entries of a cache that it has beside those of all processors.
    pub fn bits(&self) -> u64 {
        if self.has_avx512 { 4 } else { 0 }
    }

    /// The bit of its platform in an entry of a cache.
    pub fn platform_bit(&self) -> u64 {
        if self.is_haswell {
            1 << 50
        } else if self.is_386 && self.level > 0 {
            1 << 49
        } else {
            0
        }
    }

    /// The subdirectories of `glibc-hwcaps` that are active, the best first.
    pub fn names(&self, alloc: Global) -> Result<Vec<Vec<u8>>, AllocError> {
        let mut names = Vec::new(alloc);
        if self.level >= 4 {
            names.push(Vec::from_slice(alloc, b"x86-64-v4")?)?;
        }
        if self.level >= 3 {
            names.push(Vec::from_slice(alloc, b"x86-64-v3")?)?;
        }
        if self.level >= 2 {
            names.push(Vec::from_slice(alloc, b"x86-64-v2")?)?;
        }
        Ok(names)
    }

    /// All subdirectories in which a library is looked for, in order; the last is empty.
    pub fn subdirectories(&self, alloc: Global) -> Result<Vec<Vec<u8>>, AllocError> {
        let mut all = Vec::new(alloc);
        if self.level == 0 {
            all.push(Vec::new(alloc))?;
            return Ok(all);
        }
        let names = self.names(alloc)?;
        for name in &names {
            let mut folder = Vec::new(alloc);
            folder.extend_from_slice(b"glibc-hwcaps/")?;
            folder.extend_from_slice(name)?;
            folder.push(b'/')?;
            all.push(folder)?;
        }
        self.push_old(alloc, &mut all)?;
        Ok(all)
    }

    // Those of the older kind: all sets of some words, in order.
    fn push_old(&self, alloc: Global, all: &mut Vec<Vec<u8>>) -> Result<(), AllocError> {
        let mut words: Vec<&[u8]> = Vec::new(alloc);
        words.push(b"tls/")?;
        words.push(if self.is_haswell {
            b"haswell/"
        } else if self.is_386 {
            b"i686/"
        } else {
            b"x86_64/"
        })?;
        if self.has_avx512 {
            words.push(b"avx512_1/")?;
        }
        words.push(if self.is_386 { b"sse2/" } else { b"x86_64/" })?;
        let sets: u32 = if self.has_avx512 { 16 } else { 8 };
        for set in 0..sets {
            all.push(chosen(alloc, &words, sets.saturating_sub(1).saturating_sub(set))?)?;
        }
        Ok(())
    }
}

// The words whose bits are in a set, of which the last word has the lowest.
fn chosen(alloc: Global, words: &[&[u8]], set: u32) -> Result<Vec<u8>, AllocError> {
    let mut folder = Vec::new(alloc);
    let mut bit = set;
    let mut high = 1u32;
    for _ in 1..words.len() {
        high = high.saturating_mul(2);
    }
    for word in words {
        if bit >= high {
            folder.extend_from_slice(word)?;
            bit -= high;
        }
        high /= 2;
    }
    Ok(folder)
}
