ghost use Rattle.std.specs.Prelude.{◌≡◌, ℕ, List, Some, slice_get};
ghost use Rattle.facet_base.specs.declared.layout.ShapeId.{ShapeId};
ghost use Rattle.facet_causes.specs.Reading.{element_of, kind_in};
ghost use Rattle.facet_contain.specs.Parts.{part_shape};
ghost use Rattle.facet_def.specs.declared.def.Def.TheVariants as def;
ghost use Rattle.facet_def.specs.declared.list_def.ListDef.{ListDef};
ghost use Rattle.facet_def.specs.declared.option_def.OptionDef.{OptionDef};
ghost use Rattle.facet_def.specs.declared.pointer_def.PointerDef.{PointerDef};
ghost use Rattle.facet_def.specs.declared.result_def.ResultDef.{ResultDef};
ghost use Rattle.facet_outline.specs.declared.value_kind.ValueKind.TheVariants as kind;
ghost use Rattle.facet_shape.specs.declared.shape.Shape.{Shape};
ghost use Rattle.facet_trees.specs.declared.form.Form.TheVariants as form;

/// The parts of options, results, lists, boxed slices and boxes are of the shapes that the definitions say.
pub fn part_shapes_are_in_definitions()
    ensures option { (shapes : List Shape) (s : ℕ) (shape : Shape) (d : OptionDef) → slice_get shapes s ≡ Some shape
        → kind_in shapes shape ≡ kind.Option → shape.def ≡ def.Option d → part_shape shapes s form.Present 0 ≡ d.t.0 }
    ensures ok { (shapes : List Shape) (s : ℕ) (shape : Shape) (d : ResultDef) → slice_get shapes s ≡ Some shape
        → kind_in shapes shape ≡ kind.Result → shape.def ≡ def.Result d → part_shape shapes s form.Ok 0 ≡ d.t.0 }
    ensures err { (shapes : List Shape) (s : ℕ) (shape : Shape) (d : ResultDef) → slice_get shapes s ≡ Some shape
        → kind_in shapes shape ≡ kind.Result → shape.def ≡ def.Result d → part_shape shapes s form.Err 0 ≡ d.e.0 }
    ensures list { (shapes : List Shape) (s i : ℕ) (shape : Shape) (d : ListDef) → slice_get shapes s ≡ Some shape
        → kind_in shapes shape ≡ kind.List → shape.def ≡ def.List d → part_shape shapes s form.List i ≡ d.t.0 }
    ensures boxed_slice { (shapes : List Shape) (s i : ℕ) (shape : Shape) (element : ShapeId) → slice_get shapes s ≡ Some shape
        → kind_in shapes shape ≡ kind.BoxedSlice → element_of shapes shape.def ≡ Some element → part_shape shapes s form.BoxedSlice i ≡ element.0 }
    ensures content { (shapes : List Shape) (s : ℕ) (shape : Shape) (d : PointerDef) (content : ShapeId) → slice_get shapes s ≡ Some shape
        → kind_in shapes shape ≡ kind.Box → shape.def ≡ def.Pointer d → d.pointee ≡ Some content → part_shape shapes s form.Box 0 ≡ content.0 }
{}
