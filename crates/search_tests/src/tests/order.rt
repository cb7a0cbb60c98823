//! Lists of objects, and the order in which they start. The lists and orders wanted are those that `ld.so`
//! of glibc 2.36 prints for such programs with LD_TRACE_LOADED_OBJECTS and LD_DEBUG=files, or worked out by
//! hand.
//!
//! Those of the last three cases were made by `gcc -nostdlib -Wl,--no-as-needed`: each library with `-shared`,
//! `-Wl,-soname,NAME` and a constructor, and with `-Wl,-z,initfirst` or `-Wl,--auxiliary,NAME` where a case says
//! so, and the program with its folder as DT_RPATH. The link took the place of a library with its name after
//! all were linked.

use crate::tests::want::want_at;
use elf_search::SearchError;
use elf_search::order::Order;
use elf_search::start::start_order;
use std::process::Abort;
use std::test::Fail;

// What an entry found.
#[derive(Clone, Copy)]
enum Found {
    // A new object with this number of entries.
    New(u32),
    // An object that is there.
    Known(u32),
    // Nothing.
    Missing,
    // A new object, by an auxiliary or a filter entry.
    NewBefore(u32),
    // An object that is there, by an auxiliary or a filter entry.
    KnownBefore(u32),
}

// The number of entries of a program, what they and those of the objects found, in the order in which they
// are asked for, the list, the objects with the flag DF_1_INITFIRST in the order in which they are loaded,
// and the order of starts.
struct Case {
    entries: u32,
    found: &'static [((u32, u32), Found)],
    list: &'static [u32],
    flagged: &'static [u32],
    starts: &'static [u32],
}

const CASES: &[Case] = &[
    // a program with two libraries, which need a third that needs the first: a circle
    Case {
        entries: 2,
        found: &[
            ((0, 0), Found::New(2)),
            ((0, 1), Found::New(1)),
            ((1, 0), Found::New(1)),
            ((1, 1), Found::Known(2)),
            ((2, 0), Found::Known(3)),
            ((3, 0), Found::Known(1)),
        ],
        list: &[0, 1, 2, 3],
        flagged: &[],
        starts: &[2, 1, 3],
    },
    // the same with the entries of the program exchanged
    Case {
        entries: 2,
        found: &[
            ((0, 0), Found::New(1)),
            ((0, 1), Found::New(2)),
            ((1, 0), Found::New(1)),
            ((2, 0), Found::Known(3)),
            ((2, 1), Found::Known(1)),
            ((3, 0), Found::Known(2)),
        ],
        list: &[0, 1, 2, 3],
        flagged: &[],
        starts: &[1, 2, 3],
    },
    // a missing name, and a library that needs the program and itself
    Case {
        entries: 2,
        found: &[
            ((0, 0), Found::Missing),
            ((0, 1), Found::New(3)),
            ((1, 0), Found::Known(0)),
            ((1, 1), Found::Known(1)),
            ((1, 2), Found::New(0)),
        ],
        list: &[0, 1, 2],
        flagged: &[],
        starts: &[2, 1],
    },
    // an auxiliary library is put before the one that names it, and gone through after it
    Case {
        entries: 2,
        found: &[
            ((0, 0), Found::New(1)),
            ((0, 1), Found::New(1)),
            ((1, 0), Found::NewBefore(1)),
            ((3, 0), Found::New(0)),
            ((2, 0), Found::Known(4)),
        ],
        list: &[0, 3, 1, 2, 4],
        flagged: &[],
        starts: &[4, 2, 3, 1],
    },
    // a library that is behind the one that filters it is moved before it
    Case {
        entries: 2,
        found: &[
            ((0, 0), Found::New(1)),
            ((0, 1), Found::New(0)),
            ((1, 0), Found::KnownBefore(2)),
        ],
        list: &[0, 2, 1],
        flagged: &[],
        starts: &[2, 1],
    },
    // of four auxiliary entries one finds a new library, the next that library by its soname, which stays where it is, and
    // the others nothing, as those of a file that is missing or no library
    Case {
        entries: 2,
        found: &[
            ((0, 0), Found::New(4)),
            ((0, 1), Found::New(0)),
            ((1, 0), Found::NewBefore(0)),
            ((1, 1), Found::KnownBefore(3)),
            ((1, 2), Found::Missing),
            ((1, 3), Found::Missing),
        ],
        list: &[0, 3, 1, 2],
        flagged: &[],
        starts: &[2, 3, 1],
    },
    // a library, and a link to it, which the caller knows by its device and inode: both are one object; another library
    // needs the link, and so starts after it
    Case {
        entries: 3,
        found: &[
            ((0, 0), Found::New(0)),
            ((0, 1), Found::Known(1)),
            ((0, 2), Found::New(1)),
            ((2, 0), Found::Known(1)),
        ],
        list: &[0, 1, 2],
        flagged: &[],
        starts: &[1, 2],
    },
    // of three libraries the first two are linked with -z initfirst, and the second one needs a fourth
    Case {
        entries: 3,
        found: &[
            ((0, 0), Found::New(0)),
            ((0, 1), Found::New(1)),
            ((0, 2), Found::New(0)),
            ((2, 0), Found::New(0)),
        ],
        list: &[0, 1, 2, 3, 4],
        flagged: &[1, 2],
        starts: &[2, 4, 3, 1],
    },
    // the last one that is loaded is not the last in the list: an auxiliary library, linked with -z initfirst, as is
    // the second library of the program
    Case {
        entries: 2,
        found: &[
            ((0, 0), Found::New(1)),
            ((0, 1), Found::New(0)),
            ((1, 0), Found::NewBefore(0)),
        ],
        list: &[0, 3, 1, 2],
        flagged: &[2, 3],
        starts: &[3, 2, 1],
    },
];

// Answers an entry.
fn answer(order: &mut Order<'_>, found: Found) -> Result<(), SearchError> {
    match found {
        Found::New(entries) => {
            order.add(entries)?;
        }
        Found::Known(number) => order.found(number)?,
        Found::Missing => order.missing(),
        Found::NewBefore(entries) => {
            order.add_before(entries)?;
        }
        Found::KnownBefore(number) => order.found_before(number)?,
    }
    Ok(())
}

// Wants the list to be this one.
fn want_list(rt: &impl Abort, order: &Order<'_>, list: &[u32]) {
    let mut next = Some(order.first());
    for &number in list {
        want_at(rt, number, next, Some(number));
        next = order.following(number);
    }
    want_at(rt, "end", next, None);
}

// Wants the libraries to start in an order: the last one with DF_1_INITFIRST, which the caller of `start_order`
// takes first, and then the others.
fn want_starts(rt: &impl Abort, starts: &[u32], case: &Case) {
    let first = case.flagged.last();
    let mut place = 0;
    if first.is_some() {
        want_at(rt, 0, first, case.starts.first());
        place = 1;
    }
    for number in starts {
        if Some(number) != first {
            want_at(rt, place, Some(number), case.starts.get(place));
            place = place.saturating_add(1);
        }
    }
}

#[test]
fn objects_stand_in_order(rt: HostRuntime) -> Result<(), Fail> {
    for case in CASES {
        let mut objects = [0; 32];
        let mut edges = [0; 32];
        let mut words = [0; 32];
        let mut order = Order::new(&mut objects, &mut edges, case.entries)?;
        for &(asked, found) in case.found {
            want_at(&rt, asked, order.next(), Some(asked));
            answer(&mut order, found)?;
        }
        want_at(&rt, "end", order.next(), None);
        want_list(&rt, &order, case.list);
        let count = start_order(&order, &mut words)?;
        want_at(&rt, "count", count, case.starts.len());
        want_starts(&rt, words.get(..count).unwrap_or(&[]), case);
    }
    Ok(())
}

#[test]
fn words_may_be_too_few(rt: HostRuntime) -> Result<(), Fail> {
    let mut objects = [0; 8];
    let mut edges = [0; 3];
    let few = Err(SearchError::FewWords);
    let none = Err(SearchError::NoObject);
    want_at(
        &rt,
        "objects",
        Order::new(&mut objects[..3], &mut edges, 2).is_err(),
        true,
    );
    want_at(
        &rt,
        "edges",
        Order::new(&mut objects, &mut edges, 4).is_err(),
        true,
    );
    let mut order = Order::new(&mut objects, &mut edges, 2)?;
    want_at(&rt, "number", order.found(1), none);
    want_at(&rt, "entries", order.add(2), few);
    want_at(&rt, "new", order.add(1), Ok(1));
    want_at(&rt, "object", order.add(0), few);
    want_at(&rt, "found", order.found(1), Ok(()));
    want_at(&rt, "last", order.next(), Some((1, 0)));
    order.missing();
    want_at(&rt, "answered", order.found(0), none);
    let mut words = [0; 6];
    want_at(
        &rt,
        "starts",
        start_order(&order, &mut words[..5]),
        Err(SearchError::FewWords),
    );
    want_at(&rt, "starts", start_order(&order, &mut words), Ok(1));
    Ok(())
}
