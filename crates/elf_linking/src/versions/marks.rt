//! The definitions of versions with their places by numbers, which spare a search of the list.

ghost use Rattle.std.specs.Prelude.{◌≡◌, ◌+◌, ◌<◌, ◌≤◌, length, slice_index};
ghost use Rattle.elf_linking.specs.MarkedVersions.{AreMarks, marked_at, marked_with};

use crate::versions::records::Records;

// The records of definitions, and of each number below 64 its mark: the place of the first
// definition with it that isn't the base, plus 1; 0 if none is known.
#[derive(Clone, Copy, Debug)]
pub(crate) struct Marked<'a> {
    pub(crate) records: Records<'a>,
    marks: [u16; 64],
    ghost right: { AreMarks records.order records.bytes.now (length records.bytes.now) marks },
}

impl<'a> Marked<'a> {
    ghost use Rattle.std.specs.Prelude.{IfSome, Ok, Some};
    ghost use Rattle.elf_linking.specs.VersionTables.{definition_at, definitions_in, records_data};
    ghost use Rattle.elf_linking.specs.Versions.{defines_number, first_item};

    // These records. At most 64 definitions are read, all in the first 64 KiB.
    pub(crate) fn new(records: Records<'a>) -> Marked<'a>
        ensures { result.records ≡ records.entry }
    {
        let mut marks = [0u16; 64];
        let mut place = 0;
        for passed in 0..records.bytes.len() {
            if passed >= 64 || place >= 0xffff || !records.contain(place, 20) {
                return Marked { records, marks };
            }
            mark(&mut marks, &records, place as u16);
            if records.u32_at(place, 16) == 0 {
                return Marked { records, marks };
            }
            place = records.place_behind(place, 16);
        }
        Marked { records, marks }
    }

    // The place of the first definition with a number that isn't the base, if there is a mark of it.
    #[inline(always)]
    pub(crate) fn place_of(&self, number: u16) -> Option<usize>
        ensures whole { IfSome result (λ place.
            place + 20 ≤ length (records_data self.now.records).bytes) }
        ensures first { let definitions = records_data self.now.records in
            IfSome result (λ place. Ok (Some (definition_at definitions place))
            ≡ first_item (defines_number number) (definitions_in definitions)) }
    {
        let mark = mark_of(&self.marks, number);
        if mark == 0 {
            return None;
        }
        Some(usize::from(mark) - 1)
    }
}

// The mark of a number; 0 if there is none.
#[tactic(auto, using(std::proofs::lemmas::List::get_or_past))]
#[inline(always)]
fn mark_of(marks: &[u16], number: u16) -> u16
    ensures { result ≡ slice_index marks.now number }
{
    let index = usize::from(number);
    if index < marks.len() { marks[index] } else { 0 }
}

// Marks the definition at a place.
fn mark(marks: &mut [u16], records: &Records<'_>, place: u16)
    requires long { length marks.old ≡ 64 }
    requires small { place < 65535 }
    requires whole { place + 20 ≤ length records.now.bytes.now }
    ensures { marks.new ≡ marked_at records.now.order records.now.bytes.now place marks.old }
{
    let start = usize::from(place);
    mark_with(
        marks,
        records.u16_at(start, 4) % 0x8000,
        records.u16_at(start, 2),
        place,
    );
}

// Marks a definition with this number and these flags, unless it is the base, or there is a mark of
// its number.
fn mark_with(marks: &mut [u16], number: u16, flags: u16, place: u16)
    requires long { length marks.old ≡ 64 }
    requires small { place < 65535 }
    ensures { marks.new ≡ marked_with number flags place marks.old }
{
    let index = usize::from(number);
    if index < 64 && marks[index] == 0 && flags % 2 != 1 {
        marks[index] = place + 1;
    }
}
