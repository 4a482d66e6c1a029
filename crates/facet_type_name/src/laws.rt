ghost use Rattle.std.specs.Prelude.{◌≡◌, ◌+◌, ◌<ℤ◌, ◌++◌, ℕ, suc, pos, All, Bool, true, false, Contains, [], ◌∷◌, codes, length, List, None, slice_get, Some};
ghost use Rattle.std.specs.Fmt.{decimal};
ghost use Rattle.std.specs.List.{sum_by};
ghost use Rattle.facet_base.specs.declared.layout.ShapeId.{ShapeId};
ghost use Rattle.facet_base.specs.declared.type_name.TypeNameOpts.{TypeNameOpts};
ghost use Rattle.facet_def.specs.declared.array_def.ArrayDef.{ArrayDef};
ghost use Rattle.facet_def.specs.declared.def.Def.TheVariants as def;
ghost use Rattle.facet_def.specs.declared.slice_def.SliceDef.{SliceDef};
ghost use Rattle.facet_outline.specs.References.{LeadLower, height_references};
ghost use Rattle.facet_shape.specs.WithoutSpare.{shape_without_spare};
ghost use Rattle.facet_shape.specs.declared.shape.Shape.{Shape};
ghost use Rattle.facet_type_name.specs.Name.{IsWhole, array_name, bracketed, bytes_of, ellipsis, full_name, generic_name, name_children, name_pieces, name_text, own_name_bytes, slice_name};

/// The name of a shape depends on the items of its lists, and not on how much room they have for more.
pub fn names_are_of_items()
    ensures pieces { (shown : Bool) (s : Shape) → name_pieces shown (shape_without_spare s) ≡ name_pieces shown s }
    ensures own { (s : Shape) → own_name_bytes (shape_without_spare s) ≡ own_name_bytes s }
    ensures children { (s : Shape) → name_children (shape_without_spare s) ≡ name_children s }
{}

/// The children of a name are among the references that the height counts, so they must stand before the shape.
pub fn name_children_are_references()
    ensures { (s : Shape) (id : ShapeId) → Contains (name_children s) id → Contains (height_references s) id }
{}

/// A full name is as long as what it has of its own and the names of its children, which show one level less.
pub fn full_names_have_lengths()
    ensures there { (shapes : List Shape) (k : ℕ) (id : ShapeId) (s : Shape) → slice_get shapes id.0 ≡ Some s → length (full_name shapes (suc k) id) ≡ own_name_bytes s + sum_by (λ c. length (full_name shapes k c)) (name_children s) }
    ensures missing { (shapes : List Shape) (k : ℕ) (id : ShapeId) → slice_get shapes id.0 ≡ None → full_name shapes k id ≡ [] }
{}

/// A full name has one level more than its children; where references lead to lower ids, it has no more than its id
/// and one.
pub fn full_names_are_whole()
    ensures above { (shapes : List Shape) (k : ℕ) (id : ShapeId) (s : Shape) → slice_get shapes id.0 ≡ Some s → All (IsWhole shapes k) (name_children s) → IsWhole shapes (suc k) id }
    ensures lower { (shapes : List Shape) → LeadLower shapes → (id : ShapeId) → IsWhole shapes (suc id.0) id }
{}

/// Under options that show all levels, the name is the full name.
pub fn all_levels_are_the_full_name()
    ensures { (shapes : List Shape) (opts : TypeNameOpts) → opts.recurse_ttl <ℤ pos 0 → (k : ℕ) (id : ShapeId) → name_text shapes k opts id ≡ full_name shapes k id }
{}

/// The table of names: what is written of each form, with the children shown and without, and where some are missing.
pub fn names_are_written_so()
    ensures one_parameter { (name : ShapeId → List ℕ) (word : List ℕ) (t : ShapeId) (more : List ShapeId) → bytes_of name (generic_name word 1 true (t ∷ more)) ≡ word ++ codes "<" ++ name t ++ codes ">" }
    ensures two_parameters { (name : ShapeId → List ℕ) (word : List ℕ) (t e : ShapeId) (more : List ShapeId) → bytes_of name (generic_name word 2 true (t ∷ e ∷ more)) ≡ word ++ codes "<" ++ name t ++ codes ", " ++ name e ++ codes ">" }
    ensures missing { (name : ShapeId → List ℕ) (word : List ℕ) (n : ℕ) → bytes_of name (generic_name word n true []) ≡ word ++ codes "<>" }
    ensures hidden { (name : ShapeId → List ℕ) (word : List ℕ) (n : ℕ) (parameters : List ShapeId) → bytes_of name (generic_name word n false parameters) ≡ word ++ codes "<" ++ ellipsis ++ codes ">" }
    ensures array { (name : ShapeId → List ℕ) (a : ArrayDef) → bytes_of name (array_name true (def.Array a)) ≡ codes "[" ++ name a.t ++ codes "; " ++ decimal a.n ++ codes "]" }
    ensures slice { (name : ShapeId → List ℕ) (s : SliceDef) → bytes_of name (slice_name true (def.Slice s)) ≡ codes "[" ++ name s.t ++ codes "]" }
    ensures one_field { (name : ShapeId → List ℕ) (t : ShapeId) → bytes_of name (bracketed true (t ∷ [])) ≡ codes "(" ++ name t ++ codes ",)" }
    ensures two_fields { (name : ShapeId → List ℕ) (a b : ShapeId) → bytes_of name (bracketed true (a ∷ b ∷ [])) ≡ codes "(" ++ name a ++ codes ", " ++ name b ++ codes ")" }
    ensures two_hidden { (name : ShapeId → List ℕ) (a b : ShapeId) → bytes_of name (bracketed false (a ∷ b ∷ [])) ≡ codes "(" ++ ellipsis ++ codes ", " ++ ellipsis ++ codes ")" }
{}
