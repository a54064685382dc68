// The services for callers in C and Rust: the same answers as plain numbers. include/brundhal.h declares them. The structs and what they
// say are in the crates `brundhal_*_answers`.
// Nothing has to be checked first. A slice passes as a pointer and a length in elements; a null or an overlapping pointer is the
// caller's fault, and so is a length that is not that of the memory behind it.
#![tactic(auto)]

ghost use Rattle.std.specs.Prelude.{◌≡◌, pos, ◌+ℤ◌, ◌-ℤ◌, ◌*ℤ◌, length, take, drop};
ghost use Rattle.std.specs.Int.Signed.{le_z};
ghost use Rattle.definitions.specs.Limits.{base, version};
ghost use Rattle.definitions.specs.Address.{child_address, corner_address, parent_address};
ghost use Rattle.definitions.specs.Mesh.{inspection, report_after, bounds_of};
ghost use Rattle.lot_format.specs.Format.{lot_file};
ghost use Rattle.lot_format.specs.Reading.{read_into, handed_out};
ghost use Rattle.foundation.specs.Laid.{laid_over};
ghost use Rattle.lot_format.specs.Runs.{groups_of};
ghost use Rattle.lot_format.specs.Naming.{naming, name_given};
ghost use Rattle.lot_format.specs.Writing.{writing, file_of};
ghost use Rattle.slip_format.specs.Slip.{slip_limits, slip_of};
ghost use Rattle.lot_writer.specs.Meaning.{runs};
ghost use Rattle.wide_number.specs.Meaning.{single_of, order_of};
ghost use Rattle.brundhal_cell_answers.specs.Meaning.{move_numbers, move_fields, address_held};
ghost use Rattle.brundhal_number_answers.specs.Meaning.{number_words, number_fields, single_numbers, single_fields, order_number, answer_number, number_held};
ghost use Rattle.brundhal_mesh_answers.specs.Meaning.{inspection_numbers, inspection_fields, stamp_told, stamp_for};
ghost use Rattle.brundhal_bounds_answers.specs.Meaning.{bounds_numbers, bounds_fields};
ghost use Rattle.brundhal_lot_answers.specs.Meaning.{lot_numbers, lot_fields};
ghost use Rattle.brundhal_written_answers.specs.Meaning.{writing_numbers, written_fields};
ghost use Rattle.brundhal_name_answers.specs.Meaning.{name_numbers, name_fields, name_told};

use brundhal_bounds_answers::BrundhalBounds;
use brundhal_cell_answers::{BrundhalAddress, BrundhalMove};
use brundhal_lot_answers::BrundhalLot;
use brundhal_mesh_answers::BrundhalInspection;
use brundhal_name_answers::BrundhalName;
use brundhal_number_answers::{BrundhalNumber, BrundhalSingle};
use brundhal_written_answers::BrundhalWritten;
use cell_address::Address;
use lot_runs::{Groups, Space};

// The version of what the library's callers see.
#[unsafe(no_mangle)]
pub extern "C" fn brundhal_version() -> u32
    ensures { result ≡ version }
{
    limits::VERSION
}

// Inspects a mesh: `inspector::inspect`.
#[unsafe(no_mangle)]
pub extern "C" fn brundhal_inspect(
    coordinates: &[i32],
    indices: &[u32],
    depth: u32,
    report: &mut [i64],
) -> BrundhalInspection
    ensures result_value { inspection_fields result ≡ inspection_numbers (inspection base coordinates.now indices.now (length report.old) depth) }
    ensures report_after { report.new ≡ report_after base coordinates.now indices.now report.old depth }
{
    BrundhalInspection::from(inspector::inspect(coordinates, indices, depth, report))
}

// Both bounds of eight points: `inspector::bounds_of`.
#[unsafe(no_mangle)]
pub extern "C" fn brundhal_bounds(points: &[i32; 24], depth: u32) -> BrundhalBounds
    ensures { bounds_fields result ≡ bounds_numbers (bounds_of base points.now depth) }
{
    BrundhalBounds::from(inspector::bounds_of(*points, depth))
}

// The same by the second inspector: `auditor::inspect` and `auditor::bounds_of`.
#[unsafe(no_mangle)]
pub extern "C" fn brundhal_audit(
    coordinates: &[i32],
    indices: &[u32],
    depth: u32,
    report: &mut [i64],
) -> BrundhalInspection
    ensures result_value { inspection_fields result ≡ inspection_numbers (inspection base coordinates.now indices.now (length report.old) depth) }
    ensures report_after { report.new ≡ report_after base coordinates.now indices.now report.old depth }
{
    BrundhalInspection::from(auditor::inspect(coordinates, indices, depth, report))
}

#[unsafe(no_mangle)]
pub extern "C" fn brundhal_audit_bounds(points: &[i32; 24], depth: u32) -> BrundhalBounds
    ensures { bounds_fields result ≡ bounds_numbers (bounds_of base points.now depth) }
{
    BrundhalBounds::from(auditor::bounds_of(*points, depth))
}

// The stamp of an inspection's answer, 0 sound, 1 faulty or 2 open: `inspection_counts::stamp_of`. An answer with another number than 0 is that of a
// refused mesh, which has no stamp: 3.
#[unsafe(no_mangle)]
pub extern "C" fn brundhal_stamp(answer: BrundhalInspection) -> u32
    ensures { result ≡ stamp_told (stamp_for answer) }
{
    brundhal_mesh_answers::stamp_told(answer)
}

// The moves of an address: `cell_address::Address`.
#[unsafe(no_mangle)]
pub extern "C" fn brundhal_child(q: BrundhalAddress, n: u32) -> BrundhalMove
    ensures { move_fields result ≡ move_numbers (child_address base.depth (address_held q) n) }
{
    BrundhalMove::from(Address::from(q).child(n))
}

#[unsafe(no_mangle)]
pub extern "C" fn brundhal_corner(q: BrundhalAddress, n: u32) -> BrundhalMove
    ensures { move_fields result ≡ move_numbers (corner_address base.depth (address_held q) n) }
{
    BrundhalMove::from(Address::from(q).corner(n))
}

#[unsafe(no_mangle)]
pub extern "C" fn brundhal_parent(q: BrundhalAddress) -> BrundhalMove
    ensures { move_fields result ≡ move_numbers (parent_address base.depth (address_held q)) }
{
    BrundhalMove::from(Address::from(q).parent())
}

// Reads a lot file: `lot_reader::read`. C has no part of a slice, so the label is told by its place in the file and its length.
#[unsafe(no_mangle)]
pub extern "C" fn brundhal_read_lot(
    file: &[u8],
    nodes: &mut [i32],
    elements: &mut [u32],
    names: &mut [u8],
    lengths: &mut [u32],
    offsets: &mut [u32],
) -> BrundhalLot
    ensures result_value { lot_fields result ≡ lot_numbers (read_into lot_file file.now nodes.old elements.old names.old lengths.old offsets.old) }
    ensures file_value { take result.len (drop result.start file.now) ≡ (handed_out (read_into lot_file file.now nodes.old elements.old names.old lengths.old offsets.old)).label }
    ensures nodes_after { nodes.new ≡ laid_over (handed_out (read_into lot_file file.now nodes.old elements.old names.old lengths.old offsets.old)).nodes nodes.old }
    ensures elements_after { elements.new ≡ laid_over (handed_out (read_into lot_file file.now nodes.old elements.old names.old lengths.old offsets.old)).elements elements.old }
    ensures names_after { names.new ≡ laid_over (handed_out (read_into lot_file file.now nodes.old elements.old names.old lengths.old offsets.old)).names names.old }
    ensures lengths_after { lengths.new ≡ laid_over (handed_out (read_into lot_file file.now nodes.old elements.old names.old lengths.old offsets.old)).lengths lengths.old }
    ensures offsets_after { offsets.new ≡ laid_over (handed_out (read_into lot_file file.now nodes.old elements.old names.old lengths.old offsets.old)).offsets offsets.old }
{
    let mut space = Space {
        nodes,
        elements,
        names,
        lengths,
        offsets,
    };
    match lot_reader::read(file, &mut space) {
        Ok(contents) => { brundhal_lot_answers::accepted(contents, contents.label.len() as u32) }
        Err(r) => brundhal_lot_answers::refused(r),
    }
}

// Writes a lot file: `lot_writer::write`.
#[unsafe(no_mangle)]
pub extern "C" fn brundhal_write_lot(
    label: &[u8],
    nodes: &[i32],
    elements: &[u32],
    names: &[u8],
    lengths: &[u32],
    offsets: &[u32],
    out: &mut [u8],
) -> BrundhalWritten
    ensures result_value { written_fields result ≡ writing_numbers (writing lot_file (runs label.now nodes.now elements.now names.now lengths.now offsets.now) (length out.old)) }
    ensures out_after { out.new ≡ laid_over (file_of (writing lot_file (runs label.now nodes.now elements.now names.now lengths.now offsets.now) (length out.old))) out.old }
{
    let groups = lot_runs::Groups {
        names,
        lengths,
        offsets,
    };
    let lot = lot_runs::Lot {
        label,
        nodes,
        elements,
        groups,
    };
    brundhal_written_answers::written(lot_writer::write(lot, out))
}

// The name that an element bears: `lot_naming::name_of`. C has no part of a slice, so it is told by its place and its length.
#[unsafe(no_mangle)]
pub extern "C" fn brundhal_name(
    label: &[u8],
    names: &[u8],
    lengths: &[u32],
    offsets: &[u32],
    elements: u32,
    element: u32,
) -> BrundhalName
    ensures result_value { name_fields result ≡ name_numbers label.now (groups_of names.now lengths.now offsets.now) element (naming lot_file label.now names.now lengths.now offsets.now elements element) }
    ensures names_value { name_told result label.now names.now ≡ name_given (naming lot_file label.now names.now lengths.now offsets.now elements element) }
{
    let groups = Groups {
        names,
        lengths,
        offsets,
    };
    let refusal = lot_naming::refusal_of(label, groups, elements, element);
    let part = lot_group_names::part_in_force(groups, element);
    brundhal_name_answers::name(refusal, part, label.len())
}

// Writes the slip of a lot file to the front of the lent bytes and returns its length: `slip_writer::write`.
#[unsafe(no_mangle)]
pub extern "C" fn brundhal_slip(file: &[u8], out: &mut [u8; limits::SLIP_BYTES]) -> usize
    ensures value { result ≡ length (slip_of base lot_file slip_limits file.now) }
    ensures out_after { out.new ≡ laid_over (slip_of base lot_file slip_limits file.now) out.old }
{
    slip_writer::write(file, out)
}

// Numbers of two words: `wide_number::Wide`. An answer that is a number is modulo 2^128; an order is -1 for less, 0 for equal and 1 for greater.
#[unsafe(no_mangle)]
pub extern "C" fn brundhal_number_from_i64(x: i64) -> BrundhalNumber
    ensures { number_fields result ≡ number_words x }
{
    brundhal_number_answers::from_i64(x)
}

#[unsafe(no_mangle)]
pub extern "C" fn brundhal_number_to_i64(x: BrundhalNumber) -> BrundhalSingle
    ensures { single_fields result ≡ single_numbers (single_of (number_held x)) }
{
    brundhal_number_answers::to_i64(x)
}

#[unsafe(no_mangle)]
pub extern "C" fn brundhal_number_add(x: BrundhalNumber, y: BrundhalNumber) -> BrundhalNumber
    ensures { number_fields result ≡ number_words (number_held x +ℤ number_held y) }
{
    brundhal_number_answers::add(x, y)
}

#[unsafe(no_mangle)]
pub extern "C" fn brundhal_number_sub(x: BrundhalNumber, y: BrundhalNumber) -> BrundhalNumber
    ensures { number_fields result ≡ number_words (number_held x -ℤ number_held y) }
{
    brundhal_number_answers::sub(x, y)
}

#[unsafe(no_mangle)]
pub extern "C" fn brundhal_number_mul(x: BrundhalNumber, y: BrundhalNumber) -> BrundhalNumber
    ensures { number_fields result ≡ number_words (number_held x *ℤ number_held y) }
{
    brundhal_number_answers::mul(x, y)
}

#[unsafe(no_mangle)]
pub extern "C" fn brundhal_number_product(x: i64, y: i64) -> BrundhalNumber
    ensures { number_fields result ≡ number_words (x *ℤ y) }
{
    brundhal_number_answers::product(x, y)
}

#[unsafe(no_mangle)]
pub extern "C" fn brundhal_number_twice(x: BrundhalNumber) -> BrundhalNumber
    ensures { number_fields result ≡ number_words (pos 2 *ℤ number_held x) }
{
    brundhal_number_answers::twice(x)
}

#[unsafe(no_mangle)]
pub extern "C" fn brundhal_number_four_times(x: BrundhalNumber) -> BrundhalNumber
    ensures { number_fields result ≡ number_words (pos 4 *ℤ number_held x) }
{
    brundhal_number_answers::four_times(x)
}

#[unsafe(no_mangle)]
pub extern "C" fn brundhal_number_compare(x: BrundhalNumber, y: BrundhalNumber) -> i32
    ensures { result ≡ order_number (order_of (number_held x) (number_held y)) }
{
    brundhal_number_answers::compare(x, y)
}

// The order against 0.
#[unsafe(no_mangle)]
pub extern "C" fn brundhal_number_sign(x: BrundhalNumber) -> i32
    ensures { result ≡ order_number (order_of (number_held x) (pos 0)) }
{
    brundhal_number_answers::sign(x)
}

#[unsafe(no_mangle)]
pub extern "C" fn brundhal_number_at_most(x: BrundhalNumber, y: BrundhalNumber) -> u32
    ensures { result ≡ answer_number (le_z (number_held x) (number_held y)) }
{
    brundhal_number_answers::at_most(x, y)
}
