// The printed slip of a lot: the service `write`. Nothing has to be checked first: it takes any bytes, and states its whole answer, every
// byte of lent space included, as an equation with `Slip` of the crate `slip_format` at the limits `base`, `lot_file` and `slip_limits`.
// `file_slip` writes the slip behind what is written, and leaves it to its caller that there is room.
#![tactic(auto)]

ghost use Rattle.std.specs.Prelude.{◌≡◌, ◌+◌, ◌*◌, ◌≤◌, length};
ghost use Rattle.foundation.specs.Laid.{put, laid_over};
ghost use Rattle.definitions.specs.Limits.{record_words, base};
ghost use Rattle.slip_format.specs.Slip.{slip_limits, slip_bytes, slip_of};
ghost use Rattle.lot_format.specs.Format.{lot_file};
ghost use Rattle.lot_roundtrip_theory.specs.Ample.{ample};
ghost use Rattle.bytes_output.specs.Behind.{Laid};

use bytes_output::Output;
use limits::{AMPLE_ELEMENTS, AMPLE_GROUPS, AMPLE_NAMES, AMPLE_NODES, SLIP_BYTES, SLIP_WORDS};
use lot_runs::Space;

// The slip of a file, with lent space for what its lot holds, as much as any lot needs, and for the report of as many elements as a slip
// prints.
fn file_slip(out: &mut Output, file: &[u8], space: &mut Space, report: &mut [i64])
    requires nodes_len { (length space.old.nodes.now ≡ ample.nodes) × (length space.old.elements.now ≡ ample.elements) × (length space.old.names.now ≡ ample.names) × (length space.old.lengths.now ≡ ample.lengths) × (length space.old.offsets.now ≡ ample.offsets) × (length report.old ≡ record_words * slip_limits.elements) }
    requires slip_bytes_in_bounds { out.old.at + slip_bytes ≤ length out.old.space.now }
    ensures { Laid out.old (slip_of base lot_file slip_limits file.now) out.new }
{
    let answer = lot_reader::read(file, space);
    slip_answers::answered_slip(out, answer, space, report);
}

// The slip of a file at the start of the lent bytes, with such space, and how many bytes it has.
fn put_slip(bytes: &mut [u8], file: &[u8], space: &mut Space, report: &mut [i64]) -> usize
    requires nodes_len { (length space.old.nodes.now ≡ ample.nodes) × (length space.old.elements.now ≡ ample.elements) × (length space.old.names.now ≡ ample.names) × (length space.old.lengths.now ≡ ample.lengths) × (length space.old.offsets.now ≡ ample.offsets) × (length report.old ≡ record_words * slip_limits.elements) }
    requires slip_bytes_in_bounds { slip_bytes ≤ length bytes.old }
    ensures value { result ≡ length (slip_of base lot_file slip_limits file.now) }
    ensures bytes_after { bytes.new ≡ put 0 (slip_of base lot_file slip_limits file.now) bytes.old }
{
    let mut out = Output {
        space: bytes,
        at: 0,
    };
    file_slip(&mut out, file, space, report);
    out.at
}

// Writes the slip of a file to the lent space, which is always large enough, and returns how many bytes it has. A file that is no lot has
// a slip too: the line that says why it is refused.
pub fn write(file: &[u8], out: &mut [u8; SLIP_BYTES]) -> usize
    ensures value { result ≡ length (slip_of base lot_file slip_limits file.now) }
    ensures out_after { out.new ≡ laid_over (slip_of base lot_file slip_limits file.now) out.old }
{
    let mut nodes = [0i32; AMPLE_NODES];
    let mut elements = [0u32; AMPLE_ELEMENTS];
    let mut names = [0u8; AMPLE_NAMES];
    let mut lengths = [0u32; AMPLE_GROUPS];
    let mut offsets = [0u32; AMPLE_GROUPS];
    let mut report = [0i64; SLIP_WORDS];
    let mut space = Space {
        nodes: &mut nodes,
        elements: &mut elements,
        names: &mut names,
        lengths: &mut lengths,
        offsets: &mut offsets,
    };
    put_slip(out, file, &mut space, &mut report)
}
