// The parts that a question by an index names, each in its place in the caller's entry; a refused one is empty.
ghost use Rattle.std.specs.Prelude.{◌≡◌};
ghost use Rattle.laws.specs.Part.{Behind};
ghost use Rattle.paper_questions.specs.PartAnswers.{bytes_in};
ghost use Rattle.paper_index.specs.ByIndex.{heading_by_index, unit_by_index, passage_by_index};

use index_parts::parts::{heading_by_index, passage_by_index, unit_by_index};
use questions_parts::handing::part_of;

pub fn heading_part_by_index<'a>(
    entry: &'a [u8],
    index: &[u32],
    number: u32,
    section: u32,
    column: u32,
) -> &'a [u8]
    ensures behind { Behind entry.entry.ref_ptr result.ref_ptr
        (heading_by_index entry.now index.now number section column).first }
    ensures result_value { result.now
        ≡ bytes_in entry.now (heading_by_index entry.now index.now number section column) }
{
    let part = heading_by_index(entry, index, number, section, column);
    part_of(entry, part)
}

pub fn unit_part_by_index<'a>(
    entry: &'a [u8],
    index: &[u32],
    number: u32,
    section: u32,
    column: u32,
) -> &'a [u8]
    ensures behind { Behind entry.entry.ref_ptr result.ref_ptr
        (unit_by_index entry.now index.now number section column).first }
    ensures result_value { result.now
        ≡ bytes_in entry.now (unit_by_index entry.now index.now number section column) }
{
    let part = unit_by_index(entry, index, number, section, column);
    part_of(entry, part)
}

pub fn passage_part_by_index<'a>(
    entry: &'a [u8],
    index: &[u32],
    number: u32,
    keyword: [u8; 10],
    pointer: u8,
) -> &'a [u8]
    ensures behind { Behind entry.entry.ref_ptr result.ref_ptr
        (passage_by_index entry.now index.now number keyword pointer).first }
    ensures result_value { result.now
        ≡ bytes_in entry.now (passage_by_index entry.now index.now number keyword pointer) }
{
    let part = passage_by_index(entry, index, number, keyword, pointer);
    part_of(entry, part)
}
