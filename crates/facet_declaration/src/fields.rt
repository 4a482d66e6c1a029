ghost use Rattle.std.specs.Prelude.{◌≡◌, IfOk};
ghost use Rattle.facet_declaration.specs.Fields.{field_of, field_from, fields_of as are_fields_of, offset_of};

use crate::cuts::{cut_at, ended_by, first_piece};
use crate::parts::FieldDecl;
use facet_base::{ShapeId, Text};
use facet_words::{is_name, read_number, read_reference};
use sqlite_items::Items;
use std::alloc::{AllocError, Global};

/// The field that a text is, and none exactly where it is no field; or an allocation failure.
pub fn read_field(alloc: Global, text: &str) -> Result<Option<FieldDecl>, AllocError>
    ensures { IfOk result (λ found. found ≡ field_of text.now) }
{
    let Some((name, rest)) = cut_at(text, ':') else {
        return Ok(None);
    };
    let Some((shape, place)) = cut_at(rest, '@') else {
        return Ok(None);
    };
    make_field(alloc, name, shape, place)
}

// The field of three words.
fn make_field(
    alloc: Global,
    name: &str,
    shape: &str,
    place: &str,
) -> Result<Option<FieldDecl>, AllocError>
    ensures { IfOk result (λ found. found ≡ field_from name.now shape.now place.now) }
{
    if !is_name(name) {
        return Ok(None);
    }
    let Some(id) = read_reference(shape) else {
        return Ok(None);
    };
    let Some((offset, sensitive)) = read_offset(place) else {
        return Ok(None);
    };
    Ok(Some(FieldDecl {
        name: Text::new(alloc, name)?,
        shape: ShapeId(id),
        offset,
        sensitive,
    }))
}

// The offset that a text is, and whether a `!` stands behind it.
fn read_offset(text: &str) -> Option<(u32, bool)>
    ensures { result ≡ offset_of text.now }
{
    match ended_by(text, '!') {
        Some(digits) => read_number(digits).map(|n| (n, true)),
        None => read_number(text).map(|n| (n, false)),
    }
}

/// The fields that a text is, with commas between them, and none exactly where it isn't one or more fields; or an
/// allocation failure.
pub fn read_fields(alloc: Global, text: &str) -> Result<Option<Items<FieldDecl>>, AllocError>
    ensures { IfOk result (λ found. found ≡ are_fields_of text.now) }
{
    let mut fields = Items::new(alloc);
    let mut rest = Some(text);
    while let Some(left) = rest {
        let (piece, after) = first_piece(left, ',');
        match read_field(alloc, piece)? {
            Some(field) => fields.push(field)?,
            None => return Ok(None),
        }
        rest = after;
    }
    Ok(Some(fields))
}
