use super::{Answer, Definition, Draft, EMPTY, Form, Question, Type, ask, first_two};
use facet_shape::Shape;
use facet_type_name::{own_name_bytes, push_name_children};
use std::alloc::{AllocError, Global};
use std::test::Fail;

pub fn name(alloc: Global, shape: &Shape) -> Result<Answer, AllocError> {
    let mut children = Vec::new(alloc);
    push_name_children(shape, &mut children)?;
    Ok(Answer::Name(own_name_bytes(shape), first_two(&children)))
}

#[test]
fn names_count_brackets_and_children(rt: HostRuntime) -> Result<(), Fail> {
    let alloc = rt.alloc();
    let empty = (Definition::Undefined, Type::Undefined);
    let array = (Definition::Array, Type::Undefined);
    let tuple = (Definition::Undefined, Type::Tuple);
    let rows = [
        (Form::Identifier, empty, "T".len(), (0, [0, 0])),
        (Form::Vec, empty, "Vec<>".len(), (1, [1, 0])),
        (Form::Map, empty, "BTreeMap<, >".len(), (2, [1, 2])),
        (Form::Array, array, "[; 1024]".len(), (1, [6, 0])),
        (Form::Slice, empty, "[?]".len(), (0, [0, 0])),
        (Form::Tuple, tuple, "(,)".len(), (1, [5, 0])),
    ];
    for (form, (def, ty), own, children) in rows {
        let draft = Draft {
            ty,
            def,
            form,
            ..EMPTY
        };
        assert!(rt; ask(alloc, draft, Question::Name)? == Answer::Name(own, children));
    }
    Ok(())
}
