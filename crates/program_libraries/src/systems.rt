//! What the loader of a machine has built in: that of Debian 12.

/// What the loader of a machine has built in.
#[derive(Clone, Copy, Debug)]
pub(crate) struct System {
    /// The class and the machine (e_machine) of its programs.
    class: u8,
    machine: u16,
    /// The value of `$LIB`.
    pub lib: Option<&'static str>,
    /// The value of `$PLATFORM`, if the processor has no other.
    pub platform: Option<&'static str>,
    /// The default directories.
    pub defaults: &'static str,
    /// The loader, for a file that names none.
    pub interpreter: &'static str,
    /// What entries of a cache must have, and the capabilities that each processor has.
    pub flags: u32,
    pub other_flags: u32,
    pub bits: u64,
}

// The capability that stands for subdirectories of threads (`tls`).
const TLS: u64 = 1 << 63;

const SYSTEMS: [System; 4] = [
    System {
        class: 2,
        machine: 62,
        lib: Some("lib/x86_64-linux-gnu"),
        platform: Some("x86_64"),
        defaults: "/lib/x86_64-linux-gnu:/usr/lib/x86_64-linux-gnu:/lib:/usr/lib",
        interpreter: "/lib64/ld-linux-x86-64.so.2",
        flags: 0x303,
        other_flags: 0x303,
        bits: TLS | 2,
    },
    System {
        class: 2,
        machine: 183,
        lib: Some("lib/aarch64-linux-gnu"),
        platform: Some("aarch64"),
        defaults: "/lib/aarch64-linux-gnu:/usr/lib/aarch64-linux-gnu:/lib:/usr/lib",
        interpreter: "/lib/ld-linux-aarch64.so.1",
        flags: 0xa03,
        other_flags: 0xa03,
        bits: TLS,
    },
    System {
        class: 1,
        machine: 3,
        lib: Some("lib32"),
        platform: Some("i686"),
        defaults: "/lib32:/usr/lib32:/lib:/usr/lib",
        interpreter: "/lib/ld-linux.so.2",
        flags: 3,
        other_flags: 1,
        bits: TLS | 1,
    },
    OTHER,
];

// Another machine, of which no cache and no token is known.
const OTHER: System = System {
    class: 0,
    machine: 0,
    lib: None,
    platform: None,
    defaults: "/lib64:/usr/lib64:/lib:/usr/lib",
    interpreter: "",
    flags: u32::MAX,
    other_flags: u32::MAX,
    bits: TLS,
};

/// The system of the programs of a class and a machine.
pub(crate) fn system_of(class: u8, machine: u16) -> System {
    for system in SYSTEMS {
        if system.class == class && system.machine == machine {
            return system;
        }
    }
    OTHER
}

impl System {
    /// Whether it is known which entries of a cache are for it.
    pub(crate) fn has_cache(&self) -> bool {
        self.class != 0
    }
}
