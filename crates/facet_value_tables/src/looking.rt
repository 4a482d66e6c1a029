ghost use Rattle.std.specs.Prelude.{◌<◌, length};

use crate::operand::{read_operand, readable};
use crate::words::Words;
use crate::writing::write_number;
use facet_base::{ShapeId, Write};
use facet_compare::call_hash;
use facet_drop::write_leaves;
use facet_leaf::{Fnv128, Leaf, Recorder};
use facet_registry::Shapes;
use facet_walk::{depth, leaf_count};
use std::alloc::{AllocError, Global};

/// How many bytes of hash writes are shown.
const HASH_BYTES: usize = 256;

/// A question on one value.
#[derive(Clone, Copy)]
pub enum Look {
    /// Whether the operand holds a value.
    Reads,
    /// The number of levels.
    Depth,
    /// The number of leaves, and the leaves.
    Leaves,
    /// The bytes of the hash writes, and whether these are finished.
    Hash,
    /// The digest of the hash writes, and whether these are finished.
    Digest,
}

/// Looks at the value of an operand. False where it holds none, and the question isn't whether it does.
pub fn look_at<L: Leaf>(
    alloc: Global,
    shapes: &Shapes<L>,
    id: ShapeId,
    question: Look,
    words: &mut Words,
    out: &mut Vec<u8>,
) -> Result<bool, AllocError>
    requires { id.0 < length shapes.now.sealed }
{
    let Some(operand) = read_operand::<L>(alloc, words)? else {
        return Ok(false);
    };
    let Some(place) = readable(shapes, id, &operand) else {
        out.write(b"false")?;
        return Ok(matches!(question, Look::Reads));
    };
    match question {
        Look::Reads => out.write(b"true")?,
        Look::Depth => write_number(alloc, depth(shapes, id, place), out)?,
        Look::Leaves => {
            write_number(alloc, leaf_count(shapes, id, place), out)?;
            write_leaves(shapes, id, place, out)?;
        }
        Look::Hash => {
            let mut sink = Recorder::new(alloc, HASH_BYTES)?;
            let is_finished = call_hash(shapes, id, place, &mut sink).is_some();
            write_bytes(alloc, sink.bytes(), out)?;
            write_finished(is_finished, out)?;
        }
        Look::Digest => {
            let mut sink = Fnv128::new();
            let is_finished = call_hash(shapes, id, place, &mut sink).is_some();
            let digest = sink.digest();
            let digits = format!(in alloc; "{digest:032x}")?;
            out.write(digits.as_bytes())?;
            write_finished(is_finished, out)?;
        }
    }
    Ok(true)
}

// Writes bytes in hexadecimal digits, and `-` where there are none.
fn write_bytes(alloc: Global, bytes: &[u8], out: &mut Vec<u8>) -> Result<(), AllocError> {
    if bytes.is_empty() {
        return out.write(b"-");
    }
    for byte in bytes {
        let digits = format!(in alloc; "{byte:02x}")?;
        out.write(digits.as_bytes())?;
    }
    Ok(())
}

fn write_finished(is_finished: bool, out: &mut Vec<u8>) -> Result<(), AllocError> {
    if is_finished {
        out.write(b" finished")
    } else {
        out.write(b" None")
    }
}
