ghost use Rattle.std.specs.Prelude.{◌≡◌};

/// A value whose kind is known only when it is looked at.
#[derive(Drop)]
pub struct DynamicValueDef {}

impl DynamicValueDef {
    /// The definition, which has no members.
    pub fn new() -> DynamicValueDef
        ensures { result ≡ record {} }
    {
        DynamicValueDef {}
    }
}
