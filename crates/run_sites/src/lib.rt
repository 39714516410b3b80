// The sites of a field: the cell that a register and an offset name, and the cells before it.
#![tactic(auto)]

ghost use Rattle.std.specs.Prelude.{◌+◌, ◌≡◌};
ghost use Rattle.meaning.specs.Choice.{nth};
ghost use Rattle.meaning.specs.Instructions.{from_end, from_place};
ghost use Rattle.meaning.specs.Matching.{cell_at, cells_before};
ghost use Rattle.meaning.specs.Packing.{site_of};
ghost use Rattle.run_code_places.specs.Options.{option_meant};
ghost use Rattle.run_sites.specs.Sites.{site_cell, within_field, site_before};

use code_numbers::{FROM_END, FROM_PLACE, FROM_START};
use run_code_places::wide;

// The cell so far from the beginning of the field.
pub fn byte_at(field: &[u8], index: usize) -> Option<u8>
    ensures { option_meant result ≡ nth index field.now }
{
    field.get(index).copied()
}

// The cell so far from a place, which may lie past the end.
fn byte_after(field: &[u8], place: usize, offset: usize) -> Option<u8>
    ensures { option_meant result ≡ nth (place + offset) field.now }
{
    if offset < field.len().saturating_sub(place) {
        Some(field[place + offset])
    } else {
        None
    }
}

// The byte at a site: counted from p, back from q, or from the middle template's place.
pub fn cell_at(field: &[u8], place: usize, register: u32, offset: u32) -> Option<u8>
    ensures { option_meant result ≡ site_cell (site_of register offset) field.now place }
{
    match register {
        FROM_START => byte_at(field, wide(offset)),
        FROM_END => byte_at(field, field.len().checked_sub(wide(offset))?),
        FROM_PLACE => byte_after(field, place, wide(offset)),
        _ => None,
    }
}

// The cells before a site so far from a place, which may lie past the end.
fn before_ahead(whole: usize, place: usize, offset: usize) -> Option<usize>
    ensures { option_meant result ≡ within_field whole (cells_before (from_place offset) whole place) }
{
    if offset <= whole.checked_sub(place)? {
        Some(place + offset)
    } else {
        None
    }
}

// The cells of a field of a length before a site, which may lie at its end.
pub fn cells_before(whole: usize, place: usize, register: u32, offset: u32) -> Option<usize>
    ensures { option_meant result ≡ site_before (site_of register offset) whole place }
{
    match register {
        FROM_START => before_ahead(whole, 0, wide(offset)),
        FROM_END => whole.checked_sub(wide(offset)),
        FROM_PLACE => before_ahead(whole, place, wide(offset)),
        _ => None,
    }
}
