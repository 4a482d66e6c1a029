ghost use Rattle.std.specs.Prelude.{◌≡◌};

use crate::shape::Shape;
use facet_base::ScalarType;

impl Shape {
    /// The kind of scalar that its values are.
    pub fn scalar_type(&self) -> Option<ScalarType>
        ensures { result ≡ self.now.scalar }
    {
        self.scalar
    }
}

/// The kind of scalar that the values of a shape are.
pub fn try_from_shape(shape: &Shape) -> Option<ScalarType>
    ensures { result ≡ shape.now.scalar }
{
    shape.scalar_type()
}
