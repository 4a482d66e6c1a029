ghost use Rattle.facet_base.specs.Flags.{IsDifference};

use crate::flags::{FieldFlags, MarkerTraits, PointerFlags, ShapeFlags};
use crate::laws::{
    bits_of_their_set, contains_by_bits, insert_by_bits, intersection_by_bits, remove_by_bits,
    set_of_its_bits, union_by_bits,
};
use bitflags::Flags;
use std::alloc::{AllocError, Global};
use std::fmt;

// The constants and the defaults of the flag sets, with their bits.
fn constants() -> [(u16, u16); 26] {
    [
        (u16::from(MarkerTraits::COPY.bits()), 1),
        (u16::from(MarkerTraits::SEND.bits()), 2),
        (u16::from(MarkerTraits::SYNC.bits()), 4),
        (u16::from(MarkerTraits::EQ.bits()), 8),
        (u16::from(MarkerTraits::UNPIN.bits()), 16),
        (u16::from(MarkerTraits::UNWIND_SAFE.bits()), 32),
        (u16::from(MarkerTraits::REF_UNWIND_SAFE.bits()), 64),
        (u16::from(MarkerTraits::default().bits()), 0),
        (u16::from(PointerFlags::EMPTY.bits()), 0),
        (u16::from(PointerFlags::WEAK.bits()), 1),
        (u16::from(PointerFlags::ATOMIC.bits()), 2),
        (u16::from(PointerFlags::LOCK.bits()), 4),
        (u16::from(PointerFlags::default().bits()), 0),
        (ShapeFlags::UNTAGGED.bits(), 1),
        (ShapeFlags::NUMERIC.bits(), 2),
        (ShapeFlags::POD.bits(), 4),
        (ShapeFlags::METADATA_CONTAINER.bits(), 8),
        (ShapeFlags::default().bits(), 0),
        (FieldFlags::SENSITIVE.bits(), 1),
        (FieldFlags::FLATTEN.bits(), 2),
        (FieldFlags::SKIP.bits(), 4),
        (FieldFlags::SKIP_SERIALIZING.bits(), 8),
        (FieldFlags::SKIP_DESERIALIZING.bits(), 16),
        (FieldFlags::CHILD.bits(), 32),
        (FieldFlags::RECURSIVE_TYPE.bits(), 64),
        (FieldFlags::default().bits(), 0),
    ]
}

// What each operator returns, with its bits.
fn operations() -> [(u16, u16); 8] {
    let both = FieldFlags::SENSITIVE | FieldFlags::SKIP_SERIALIZING;
    let mut joined = FieldFlags::SENSITIVE;
    joined |= FieldFlags::SKIP_SERIALIZING;
    let mut common = both;
    common &= FieldFlags::SKIP_SERIALIZING;
    let mut flipped = both;
    flipped ^= FieldFlags::SKIP_SERIALIZING;
    [
        (both.bits(), 9),
        (joined.bits(), 9),
        ((both & FieldFlags::SKIP_SERIALIZING).bits(), 8),
        (common.bits(), 8),
        ((both ^ FieldFlags::FLATTEN).bits(), 11),
        (flipped.bits(), 1),
        ((!both).bits(), 65526),
        (u16::from((!MarkerTraits::EQ).bits()), 247),
    ]
}

// The law of `remove` without its premises, which each set of eight bits meets.
fn difference_of_eight_bits(set: MarkerTraits, other: MarkerTraits) -> MarkerTraits
    ensures { IsDifference set.bits other.bits result.bits }
{
    let mut rest = set;
    remove_by_bits(&mut rest, other);
    rest
}

// The same at sixteen bits.
fn difference_of_sixteen_bits(set: FieldFlags, other: FieldFlags) -> FieldFlags
    ensures { IsDifference set.bits other.bits result.bits }
{
    let mut rest = set;
    remove_by_bits(&mut rest, other);
    rest
}

// What each call on sets returns, with its bits.
fn calls() -> [(u16, u16); 8] {
    let mut set = union_by_bits(FieldFlags::SKIP, FieldFlags::CHILD);
    insert_by_bits(&mut set, FieldFlags::FLATTEN);
    let rest = difference_of_sixteen_bits(set, FieldFlags::SKIP | FieldFlags::SENSITIVE);
    let copy = difference_of_eight_bits(MarkerTraits::COPY, !MarkerTraits::EQ);
    [
        (set.bits(), 38),
        (rest.bits(), 34),
        (u16::from(copy.bits()), 0),
        (
            u16::from(contains_by_bits(&set, FieldFlags::FLATTEN | FieldFlags::SKIP)),
            1,
        ),
        (
            u16::from(contains_by_bits(&rest, FieldFlags::FLATTEN | FieldFlags::SKIP)),
            0,
        ),
        (intersection_by_bits(rest, FieldFlags::CHILD).bits(), 32),
        (set_of_its_bits(rest).bits(), 34),
        (u16::from(bits_of_their_set::<PointerFlags>(200)), 200),
    ]
}

#[test]
fn constants_and_calls_have_their_bits(rt: HostRuntime) {
    for (bits, expected) in constants() {
        assert_eq!(rt; bits, expected);
    }
    for (bits, expected) in operations() {
        assert_eq!(rt; bits, expected);
    }
    for (bits, expected) in calls() {
        assert_eq!(rt; bits, expected);
    }
}

// Whether `{:?}` prints a set as this text.
fn prints<F: fmt::Debug>(alloc: Global, set: &F, text: &str) -> Result<bool, AllocError> {
    Ok(format!(in alloc; "{set:?}")?.as_str() == text)
}

// Bits, with the debug texts of marker traits, pointer flags, shape flags and field flags.
fn texts() -> [(u8, [&'static str; 4]); 4] {
    [
        (0, ["(empty)", "EMPTY", "(empty)", "(empty)"]),
        (
            9,
            [
                "COPY | EQ",
                "EMPTY | WEAK",
                "UNTAGGED | METADATA_CONTAINER",
                "SENSITIVE | SKIP_SERIALIZING",
            ],
        ),
        (128, ["(empty)", "EMPTY", "(empty)", "(empty)"]),
        (
            255,
            [
                "COPY | SEND | SYNC | EQ | UNPIN | UNWIND_SAFE | REF_UNWIND_SAFE",
                "EMPTY | WEAK | ATOMIC | LOCK",
                "UNTAGGED | NUMERIC | POD | METADATA_CONTAINER",
                "SENSITIVE | FLATTEN | SKIP | SKIP_SERIALIZING | SKIP_DESERIALIZING | CHILD | RECURSIVE_TYPE",
            ],
        ),
    ]
}

#[test]
fn debug_has_the_names_of_contained_flags(rt: HostRuntime) -> Result<(), AllocError> {
    let alloc = rt.alloc();
    for (bits, [marker, pointer, shape, field]) in texts() {
        assert!(rt; prints(alloc, &MarkerTraits::from_bits_retain(bits), marker)?);
        assert!(rt; prints(alloc, &PointerFlags::from_bits_retain(bits), pointer)?);
        assert!(rt; prints(alloc, &ShapeFlags::from_bits_retain(bits.into()), shape)?);
        assert!(rt; prints(alloc, &FieldFlags::from_bits_retain(bits.into()), field)?);
    }
    Ok(())
}
