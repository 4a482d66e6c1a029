ghost use Rattle.std.specs.Prelude.{◌≡◌};
ghost use Rattle.facet_make.specs.Cloning.{cloning_of};

use facet_trees::Form;

/// What is cloned of a value that is no leaf.
#[derive(Clone, Copy)]
pub(crate) enum Cloning {
    /// Its inline parts.
    Parts,
    /// Its tag, and the inline parts behind that.
    TagAndParts(u32),
    /// It has no clone.
    Nothing,
}

/// What is cloned of the values of a form.
pub(crate) fn cloning_of(form: Form) -> Cloning
    ensures { result ≡ cloning_of form }
{
    match form {
        Form::Unit | Form::Record | Form::Array => Cloning::Parts,
        Form::Variant(tag) => Cloning::TagAndParts(tag),
        _ => Cloning::Nothing,
    }
}
