ghost use Rattle.std.specs.Prelude.{◌≡◌};
ghost use Rattle.facet_base.specs.Errors.{into_inner_text, borrow_inner_text};

use crate::layout::ShapeId;
use crate::many::Many;
use crate::scalar_type::ScalarType;
use crate::text::Text;
use std::fmt;

/// No unsigned type of a discriminant has so many bytes.
#[derive(Drop)]
pub struct BadSize;

/// A required member that a builder was not given: its index among the required ones.
#[derive(Drop)]
pub struct MissingField(pub u32);

/// Why a field of a value can't be accessed.
#[derive(Clone, Copy, PartialEq, Eq, Debug)]
pub enum FieldError {
    /// The type has no field of that name.
    NoSuchField,
    /// The type has `bound` fields, and none at `index`.
    IndexOutOfBounds { index: usize, bound: usize },
    /// The field's shape isn't the expected one.
    TypeMismatch { expected: ShapeId, actual: ShapeId },
    /// The type has no layout that all its values share.
    Unsized,
}

/// A type has no layout that all its values share.
#[derive(Clone, Copy, PartialEq, Eq, PartialOrd, Ord, Hash, Debug)]
pub struct UnsizedError;

impl fmt::Display for UnsizedError {
    ghost use Rattle.std.specs.Prelude.{Some, codes};

    ghost output = { λ _. Some (codes "Not a Sized type") };

    ghost styled_output = { λ _ _. Some (codes "Not a Sized type") };

    fn fmt<W: fmt::Write>(&self, f: &mut fmt::Formatter<W>) -> fmt::Result {
        f.write_str("Not a Sized type")
    }
}

/// A text is not one of a scalar of this kind.
#[derive(Debug, Drop)]
pub struct ParseError {
    pub kind: ScalarType,
}

impl fmt::Display for ParseError {
    ghost use Rattle.std.specs.Prelude.{Some};
    ghost use Rattle.facet_base.specs.Errors.{parse_error_text};

    ghost output = { λ error. Some (parse_error_text error) };

    fn fmt<W: fmt::Write>(&self, f: &mut fmt::Formatter<W>) -> fmt::Result {
        f.write_str("failed to parse ")?;
        f.write_str(self.kind.identifier())
    }
}

/// Why a value isn't converted into another type.
#[derive(Drop)]
pub enum TryFromError {
    /// The type takes values of the expected shapes, and not of the source's.
    UnsupportedSourceShape {
        src_shape: ShapeId,
        expected: Many<ShapeId>,
    },
    /// The type takes no values of the source's type.
    UnsupportedSourceType,
    /// Another cause, in words.
    Generic(Text),
}

/// Why a value isn't converted into the type that it wraps.
#[derive(Drop)]
pub enum TryIntoInnerError {
    /// The type has no such conversion.
    NotSupported,
    /// Another cause, in words.
    Generic(Text),
}

impl TryIntoInnerError {
    // The error in words.
    fn text(&self) -> &str
        ensures { result.now ≡ into_inner_text self.now }
    {
        match self {
            TryIntoInnerError::NotSupported => "try_into_inner not supported",
            TryIntoInnerError::Generic(text) => text.as_str(),
        }
    }
}

impl fmt::Display for TryIntoInnerError {
    ghost use Rattle.std.specs.Prelude.{Some};
    ghost use Rattle.facet_base.specs.Errors.{into_inner_text};

    ghost output = { λ error. Some (into_inner_text error) };

    ghost styled_output = { λ error _. Some (into_inner_text error) };

    fn fmt<W: fmt::Write>(&self, f: &mut fmt::Formatter<W>) -> fmt::Result {
        f.write_str(self.text())
    }
}

/// Why the value that another wraps can't be borrowed.
#[derive(Drop)]
pub enum TryBorrowInnerError {
    /// The type has no such borrow.
    NotSupported,
    /// Another cause, in words.
    Generic(Text),
}

impl TryBorrowInnerError {
    // The error in words.
    fn text(&self) -> &str
        ensures { result.now ≡ borrow_inner_text self.now }
    {
        match self {
            TryBorrowInnerError::NotSupported => "try_borrow_inner not supported",
            TryBorrowInnerError::Generic(text) => text.as_str(),
        }
    }
}

impl fmt::Display for TryBorrowInnerError {
    ghost use Rattle.std.specs.Prelude.{Some};
    ghost use Rattle.facet_base.specs.Errors.{borrow_inner_text};

    ghost output = { λ error. Some (borrow_inner_text error) };

    ghost styled_output = { λ error _. Some (borrow_inner_text error) };

    fn fmt<W: fmt::Write>(&self, f: &mut fmt::Formatter<W>) -> fmt::Result {
        f.write_str(self.text())
    }
}
