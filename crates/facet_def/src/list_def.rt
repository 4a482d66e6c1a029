ghost use Rattle.std.specs.Prelude.{◌≡◌, option_map};
ghost use Rattle.std.specs.Option.{option_copied};
ghost use Rattle.facet_def.specs.ListDef.{offers};

use facet_base::ShapeId;
use facet_caps::{IterVTable, ListTypeOps, ListVTable};

/// A list: its operations, those that need the type of its elements, if any, and the shape of its elements.
#[derive(Drop)]
pub struct ListDef {
    pub vtable: ListVTable,
    pub type_ops: Option<ListTypeOps>,
    pub t: ShapeId,
}

impl ListDef {
    /// The list of these members, without operations that need the type of its elements.
    pub fn new(vtable: ListVTable, t: ShapeId) -> ListDef
        ensures { result ≡ record { vtable = vtable; type_ops = None; t = t } }
    {
        ListDef {
            vtable,
            type_ops: None,
            t,
        }
    }

    /// The list of these members.
    pub fn with_type_ops(vtable: ListVTable, type_ops: ListTypeOps, t: ShapeId) -> ListDef
        ensures { result ≡ record { vtable = vtable; type_ops = Some type_ops; t = t } }
    {
        ListDef {
            vtable,
            type_ops: Some(type_ops),
            t,
        }
    }

    /// The shape of its elements.
    pub fn t(&self) -> ShapeId
        ensures { result ≡ self.now.t }
    {
        self.t
    }

    /// What its iterator offers, and none where no operation needs the type of its elements.
    pub fn iter_vtable(&self) -> Option<&IterVTable>
        ensures { option_copied result ≡ option_map (λ ops. ops.iter_vtable) self.now.type_ops }
    {
        let type_ops = self.type_ops.as_ref()?;
        Some(&type_ops.iter_vtable)
    }

    /// Whether an empty list can be made with room for elements.
    pub fn init_in_place_with_capacity(&self) -> bool
        ensures { result ≡ offers self.now.type_ops (λ ops. ops.init_in_place_with_capacity) }
    {
        self.type_ops
            .is_some_and(|type_ops| type_ops.init_in_place_with_capacity)
    }

    /// Whether an element can be added at the end.
    pub fn push(&self) -> bool
        ensures { result ≡ offers self.now.type_ops (λ ops. ops.push) }
    {
        self.type_ops.is_some_and(|type_ops| type_ops.push)
    }

    /// Whether the last element can be taken out.
    pub fn pop(&self) -> bool
        ensures { result ≡ offers self.now.type_ops (λ ops. ops.pop) }
    {
        self.type_ops.is_some_and(|type_ops| type_ops.pop)
    }

    /// Whether the length can be set without a look at the elements.
    pub fn set_len(&self) -> bool
        ensures { result ≡ offers self.now.type_ops (λ ops. ops.set_len) }
    {
        self.type_ops.is_some_and(|type_ops| type_ops.set_len)
    }

    /// Whether the elements can be accessed for writing, by a pointer of their type.
    pub fn as_mut_ptr_typed(&self) -> bool
        ensures { result ≡ offers self.now.type_ops (λ ops. ops.as_mut_ptr_typed) }
    {
        self.type_ops
            .is_some_and(|type_ops| type_ops.as_mut_ptr_typed)
    }

    /// Whether room for more elements can be asked for.
    pub fn reserve(&self) -> bool
        ensures { result ≡ offers self.now.type_ops (λ ops. ops.reserve) }
    {
        self.type_ops.is_some_and(|type_ops| type_ops.reserve)
    }

    /// Whether it can be asked for how many elements there is room.
    pub fn capacity(&self) -> bool
        ensures { result ≡ offers self.now.type_ops (λ ops. ops.capacity) }
    {
        self.type_ops.is_some_and(|type_ops| type_ops.capacity)
    }

    /// Whether a list can be made of a pointer, a length and a capacity.
    pub fn from_raw_parts(&self) -> bool
        ensures { result ≡ offers self.now.type_ops (λ ops. ops.from_raw_parts) }
    {
        self.type_ops
            .is_some_and(|type_ops| type_ops.from_raw_parts)
    }
}
