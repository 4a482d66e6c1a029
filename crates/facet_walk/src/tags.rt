ghost use Rattle.std.specs.Prelude.{◌≡◌, [], ◌∷◌, option_map, slice_get, unwrap_or};
ghost use Rattle.std.specs.Option.{option_map_or};
ghost use Rattle.facet_outline.specs.Field.{bodies};
ghost use Rattle.facet_outline.specs.declared.value_kind.ValueKind.TheVariants as kind;
ghost use Rattle.facet_trees.specs.Structure.{option_form, result_form, tagged};
ghost use Rattle.facet_trees.specs.declared.form.Form.TheVariants as form;
ghost use Rattle.facet_values.specs.Seen.{no_value};
ghost use Rattle.facet_walk.specs.Look.{option_bodies, parts_behind, places_of, result_bodies, seen_behind, seen_in, seen_of};

use crate::items::tag_at;
use crate::parts::Parts;
use crate::seeing::Seen;
use facet_block::PtrConst;
use facet_def::Def;
use facet_desc::{Ty, UserType};
use facet_trees::Form;

/// What is seen of an enum by its type.
pub(crate) fn see_variant<'a, L>(ty: &'a Ty, at: PtrConst<'a, L>) -> Option<Seen<'a, L>>
    ensures { seen_of result ≡ seen_behind (tagged form.Variant (bodies kind.Enum ty.now)) at.entry }
{
    match tag_at(at) {
        Some(tag) => match variant_parts(ty, tag, at) {
            Some(parts) => Some(Seen::Node(Form::Variant(tag), parts)),
            None => None,
        },
        None => None,
    }
}

// The fields of the variant under a tag, where there is one.
fn variant_parts<'a, L>(ty: &'a Ty, tag: u32, at: PtrConst<'a, L>) -> Option<Parts<'a, L>>
    ensures { option_map places_of result ≡ option_map (parts_behind at.entry) (slice_get (bodies kind.Enum ty.now) tag) }
{
    match ty {
        Ty::User(UserType::Enum(enum_type)) => match enum_type.variants.get(tag as usize) {
            Some(variant) => Some(Parts::Fields(variant.body.fields.as_slice(), at)),
            None => None,
        },
        _ => None,
    }
}

/// What is seen of an option by its definition and the offset of its part in bytes.
pub(crate) fn see_option<'a, L>(
    def: &Def,
    offset: usize,
    at: PtrConst<'a, L>,
) -> Option<Seen<'a, L>>
    ensures { seen_of result ≡ seen_behind (tagged option_form (option_bodies def.now offset)) at.entry }
{
    match def {
        Def::Option(option) => {
            let part = Parts::One {
                shape: option.t,
                offset,
                at,
            };
            node_under(
                tag_at(at),
                Seen::Node(Form::Absent, Parts::None),
                Seen::Node(Form::Present, part),
            )
        }
        _ => None,
    }
}

/// What is seen of a result by its definition and the offset of its part in bytes.
pub(crate) fn see_result<'a, L>(
    def: &Def,
    offset: usize,
    at: PtrConst<'a, L>,
) -> Option<Seen<'a, L>>
    ensures { seen_of result ≡ seen_behind (tagged result_form (result_bodies def.now offset)) at.entry }
{
    match def {
        Def::Result(result) => {
            let value = Parts::One {
                shape: result.t,
                offset,
                at,
            };
            let error = Parts::One {
                shape: result.e,
                offset,
                at,
            };
            node_under(
                tag_at(at),
                Seen::Node(Form::Ok, value),
                Seen::Node(Form::Err, error),
            )
        }
        _ => None,
    }
}

// The first under tag 0, and the second under tag 1.
fn node_under<'a, L>(
    tag: Option<u32>,
    first: Seen<'a, L>,
    second: Seen<'a, L>,
) -> Option<Seen<'a, L>>
    ensures { seen_of result ≡ option_map_or (λ k. unwrap_or (slice_get (seen_in first.entry ∷ seen_in second.entry ∷ []) k) no_value) tag no_value }
{
    match tag {
        Some(0) => Some(first),
        Some(1) => Some(second),
        _ => None,
    }
}
