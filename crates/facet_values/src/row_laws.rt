ghost use Rattle.std.specs.Prelude.{◌≡◌, ◌↔◌, ◌⊎◌, [], ℕ, List, Some, slice_get};
ghost use Rattle.facet_base.specs.declared.layout.ShapeId.{ShapeId};
ghost use Rattle.facet_base.specs.declared.scalar_type.ScalarType.{ScalarType};
ghost use Rattle.facet_causes.specs.Arrangement.{in_a_row, part_at, single};
ghost use Rattle.facet_causes.specs.Reading.{element_of, kind_in};
ghost use Rattle.facet_def.specs.declared.array_def.ArrayDef.{ArrayDef};
ghost use Rattle.facet_def.specs.declared.def.Def.TheVariants as def;
ghost use Rattle.facet_def.specs.declared.list_def.ListDef.{ListDef};
ghost use Rattle.facet_def.specs.declared.map_def.MapDef.{MapDef};
ghost use Rattle.facet_def.specs.declared.option_def.OptionDef.{OptionDef};
ghost use Rattle.facet_def.specs.declared.pointer_def.PointerDef.{PointerDef};
ghost use Rattle.facet_def.specs.declared.result_def.ResultDef.{ResultDef};
ghost use Rattle.facet_def.specs.declared.set_def.SetDef.{SetDef};
ghost use Rattle.facet_desc.specs.declared.enum_type.EnumType.{EnumType};
ghost use Rattle.facet_desc.specs.declared.struct_type.StructType.{StructType};
ghost use Rattle.facet_desc.specs.declared.ty.Ty.TheVariants as ty;
ghost use Rattle.facet_desc.specs.declared.ty.UserType.TheVariants as user;
ghost use Rattle.facet_outline.specs.Field.{placed};
ghost use Rattle.facet_outline.specs.Layout.{option_offset, pair_layout, result_offset, value_offset};
ghost use Rattle.facet_outline.specs.declared.placed_fields.PlacedField.{PlacedField};
ghost use Rattle.facet_outline.specs.declared.value_kind.ValueKind.TheVariants as kind;
ghost use Rattle.facet_shape.specs.declared.shape.Shape.{Shape};
ghost use Rattle.facet_trees.specs.Ascending.{AreAscending};
ghost use Rattle.facet_trees.specs.Value.{Value, Values, count, every_second, listed};
ghost use Rattle.facet_trees.specs.declared.form.Form.TheVariants as form;
ghost use Rattle.facet_values.specs.Place.{Place};
ghost use Rattle.facet_values.specs.Reading.{Reads};
ghost use Rattle.facet_values.specs.Rows.{ArePartsAt, IsLeafAt, IsSequenceAt, IsSequenceWith, IsTaggedAt, IsUnitAt, IsVariantAt, pair_body};

use facet_leaf::Leaf;

/// A shape without values.
pub fn no_value_row<L: Leaf>()
    ensures { (shapes : List Shape) (p : Place L) (v : Value L) (shape : Shape) → slice_get shapes p.shape ≡ Some shape
        → kind_in shapes shape ≡ kind.NoValue → ¬ Reads L.model shapes p v }
{}

/// Unit: nothing lies in the range.
pub fn unit_row<L: Leaf>()
    ensures { (shapes : List Shape) (p : Place L) (v : Value L) (shape : Shape) → slice_get shapes p.shape ≡ Some shape
        → kind_in shapes shape ≡ kind.Unit → (Reads L.model shapes p v ↔ IsUnitAt L.model shapes p v) }
{}

/// A leaf of the shape's scalar kind.
pub fn leaf_row<L: Leaf>()
    ensures { (shapes : List Shape) (p : Place L) (v : Value L) (shape : Shape) (k : ScalarType) → slice_get shapes p.shape ≡ Some shape
        → kind_in shapes shape ≡ kind.Leaf k → (Reads L.model shapes p v ↔ IsLeafAt L.model shapes k p v) }
{}

/// A struct: its fields at their offsets.
pub fn struct_row<L: Leaf>()
    ensures { (shapes : List Shape) (p : Place L) (v : Value L) (shape : Shape) (st : StructType) → slice_get shapes p.shape ≡ Some shape
        → kind_in shapes shape ≡ kind.Struct → shape.ty ≡ ty.User (user.Struct st)
        → (Reads L.model shapes p v ↔ ArePartsAt L.model shapes [] (placed st) p form.Record v) }
{}

/// An array: as many elements as it says, one behind the other.
pub fn array_row<L: Leaf>()
    ensures { (shapes : List Shape) (p : Place L) (v : Value L) (shape : Shape) (a : ArrayDef) → slice_get shapes p.shape ≡ Some shape
        → kind_in shapes shape ≡ kind.Array → shape.def ≡ def.Array a
        → (Reads L.model shapes p v ↔ ArePartsAt L.model shapes [] (in_a_row a.t a.n (part_at shapes a.t).size) p form.Array v) }
{}

/// An enum: the index of a variant as the tag, and the fields of that variant at their offsets.
pub fn enum_row<L: Leaf>()
    ensures { (shapes : List Shape) (p : Place L) (v : Value L) (shape : Shape) (e : EnumType) → slice_get shapes p.shape ≡ Some shape
        → kind_in shapes shape ≡ kind.Enum → shape.ty ≡ ty.User (user.Enum e)
        → (Reads L.model shapes p v ↔ IsVariantAt L.model shapes e p v) }
{}

/// An option: the tag 0 alone, or the tag 1 and the value behind it.
pub fn option_row<L: Leaf>()
    ensures { (shapes : List Shape) (p : Place L) (v : Value L) (shape : Shape) (o : OptionDef) → slice_get shapes p.shape ≡ Some shape
        → kind_in shapes shape ≡ kind.Option → shape.def ≡ def.Option o
        → (Reads L.model shapes p v ↔ (IsTaggedAt L.model shapes 0 [] p form.Absent v
        ⊎ IsTaggedAt L.model shapes 1 (single o.t (option_offset (part_at shapes o.t))) p form.Present v)) }
{}

/// A result: the tag 0 and a value, or the tag 1 and an error, at the same offset.
pub fn result_row<L: Leaf>()
    ensures { (shapes : List Shape) (p : Place L) (v : Value L) (shape : Shape) (r : ResultDef) → slice_get shapes p.shape ≡ Some shape
        → kind_in shapes shape ≡ kind.Result → shape.def ≡ def.Result r
        → (Reads L.model shapes p v ↔ (IsTaggedAt L.model shapes 0 (single r.t (result_offset (part_at shapes r.t) (part_at shapes r.e))) p form.Ok v
        ⊎ IsTaggedAt L.model shapes 1 (single r.e (result_offset (part_at shapes r.t) (part_at shapes r.e))) p form.Err v)) }
{}

/// A list: a sequence with an element in each block.
pub fn list_row<L: Leaf>()
    ensures { (shapes : List Shape) (p : Place L) (v : Value L) (shape : Shape) (d : ListDef) → slice_get shapes p.shape ≡ Some shape
        → kind_in shapes shape ≡ kind.List → shape.def ≡ def.List d
        → (Reads L.model shapes p v ↔ IsSequenceWith L.model shapes (λ parts. Unit {0}) (part_at shapes d.t).size (single d.t 0) p form.List v) }
{}

/// A boxed slice: the same, of the elements of the slice.
pub fn boxed_slice_row<L: Leaf>()
    ensures { (shapes : List Shape) (p : Place L) (v : Value L) (shape : Shape) (element : ShapeId) → slice_get shapes p.shape ≡ Some shape
        → kind_in shapes shape ≡ kind.BoxedSlice → element_of shapes shape.def ≡ Some element
        → (Reads L.model shapes p v ↔ IsSequenceWith L.model shapes (λ parts. Unit {0}) (part_at shapes element).size (single element 0) p form.BoxedSlice v) }
{}

/// A box: the same, with one block.
pub fn box_row<L: Leaf>()
    ensures { (shapes : List Shape) (p : Place L) (v : Value L) (shape : Shape) (d : PointerDef) (id : ShapeId) → slice_get shapes p.shape ≡ Some shape
        → kind_in shapes shape ≡ kind.Box → shape.def ≡ def.Pointer d → d.pointee ≡ Some id
        → (Reads L.model shapes p v ↔ IsSequenceWith L.model shapes (λ parts. count parts ≡ 1) (part_at shapes id).size (single id 0) p form.Box v) }
{}

/// A set: a sequence of items, strictly ascending in their total order.
pub fn set_row<L: Leaf>()
    ensures { (shapes : List Shape) (p : Place L) (v : Value L) (shape : Shape) (d : SetDef) → slice_get shapes p.shape ≡ Some shape
        → kind_in shapes shape ≡ kind.Set → shape.def ≡ def.Set d
        → (Reads L.model shapes p v ↔ IsSequenceWith L.model shapes (λ parts. AreAscending L.model shapes d.t.0 (listed parts))
        (part_at shapes d.t).size (single d.t 0) p form.Set v) }
{}

/// A map: a sequence of pairs, a key at 0 and a value behind it, by strictly ascending keys.
pub fn map_row<L: Leaf>()
    ensures { (shapes : List Shape) (p : Place L) (v : Value L) (shape : Shape) (d : MapDef) → slice_get shapes p.shape ≡ Some shape
        → kind_in shapes shape ≡ kind.Map → shape.def ≡ def.Map d
        → (Reads L.model shapes p v ↔ IsSequenceWith L.model shapes (λ parts. AreAscending L.model shapes d.k.0 (every_second parts))
        (pair_layout (part_at shapes d.k) (part_at shapes d.v)).size (pair_body d.k d.v (value_offset (part_at shapes d.k) (part_at shapes d.v))) p form.Map v) }
{}
