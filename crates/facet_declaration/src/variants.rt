ghost use Rattle.std.specs.Prelude.{◌≡◌, ◌<◌, IfOk};
ghost use Rattle.facet_declaration.specs.Variants.{bracketed, head_of, named_head, variant_of};

use crate::cuts::{cut_at, ended_by};
use crate::fields::read_fields;
use crate::parts::VariantDecl;
use facet_base::Text;
use facet_desc::StructKind;
use facet_words::{is_name, read_integer};
use sqlite_items::Items;
use std::alloc::{AllocError, Global};

/// The variant that a text is, and none exactly where it is no variant; or an allocation failure.
pub fn read_variant(alloc: Global, text: &str) -> Result<Option<VariantDecl>, AllocError>
    ensures { IfOk result (λ found. found ≡ variant_of text.now) }
{
    if let Some(variant) = read_bracketed(alloc, text, StructKind::TupleStruct, '(', ')')? {
        return Ok(Some(variant));
    }
    if let Some(variant) = read_bracketed(alloc, text, StructKind::Struct, '{', '}')? {
        return Ok(Some(variant));
    }
    match read_head(alloc, text)? {
        Some((name, discriminant)) => Ok(Some(VariantDecl {
            name,
            discriminant,
            kind: StructKind::Unit,
            fields: Items::new(alloc),
        })),
        None => Ok(None),
    }
}

// The variant of a kind that has its fields in these brackets.
fn read_bracketed(
    alloc: Global,
    text: &str,
    kind: StructKind,
    opening: char,
    closing: char,
) -> Result<Option<VariantDecl>, AllocError>
    requires { (opening < 128) × (closing < 128) }
    ensures { IfOk result (λ found. found ≡ bracketed kind opening closing text.now) }
{
    let Some((head, body)) = cut_at(text, opening) else {
        return Ok(None);
    };
    let Some(inner) = ended_by(body, closing) else {
        return Ok(None);
    };
    let Some(fields) = read_fields(alloc, inner)? else {
        return Ok(None);
    };
    match read_head(alloc, head)? {
        Some((name, discriminant)) => Ok(Some(VariantDecl {
            name,
            discriminant,
            kind,
            fields,
        })),
        None => Ok(None),
    }
}

// The name and perhaps the discriminant that a text is.
fn read_head(alloc: Global, text: &str) -> Result<Option<(Text, Option<i64>)>, AllocError>
    ensures { IfOk result (λ found. found ≡ head_of text.now) }
{
    match cut_at(text, '=') {
        Some((name, number)) => match read_integer(number) {
            Some(discriminant) => make_head(alloc, name, Some(discriminant)),
            None => Ok(None),
        },
        None => make_head(alloc, text, None),
    }
}

// A name and perhaps a discriminant, where the name is one.
fn make_head(
    alloc: Global,
    name: &str,
    discriminant: Option<i64>,
) -> Result<Option<(Text, Option<i64>)>, AllocError>
    ensures { IfOk result (λ found. found ≡ named_head name.now discriminant) }
{
    if is_name(name) {
        Ok(Some((Text::new(alloc, name)?, discriminant)))
    } else {
        Ok(None)
    }
}
