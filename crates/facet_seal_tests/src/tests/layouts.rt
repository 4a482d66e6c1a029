use super::definition::Definition::{ArrayOf, BoxOf, ListOf, MapOf, OptionOf, ResultOf, SetOf};
use super::types::Type::Opaque;
use super::{BAD_LAYOUT, SEALED, rows_are_answered, sized};
use std::test::Fail;

// Options, results and arrays have the layout that their parts make.
#[test]
fn options_results_and_arrays_are_laid_out_by_their_parts(rt: HostRuntime) -> Result<(), Fail> {
    rows_are_answered(
        &rt,
        rt.alloc(),
        &[
            (OptionOf(6), Opaque, &[6], sized(8, 4), SEALED),
            (OptionOf(6), Opaque, &[6], sized(12, 4), BAD_LAYOUT),
            (OptionOf(6), Opaque, &[6], sized(4, 4), BAD_LAYOUT),
            (OptionOf(6), Opaque, &[6], sized(8, 2), BAD_LAYOUT),
            (OptionOf(6), Opaque, &[6], sized(8, 8), BAD_LAYOUT),
            (OptionOf(0), Opaque, &[0], sized(1, 1), SEALED),
            (OptionOf(0), Opaque, &[0], sized(0, 1), BAD_LAYOUT),
            (OptionOf(3), Opaque, &[3], sized(32, 8), SEALED),
            (OptionOf(3), Opaque, &[3], sized(24, 8), BAD_LAYOUT),
            (ResultOf(4, 7), Opaque, &[4, 7], sized(16, 8), SEALED),
            (ResultOf(7, 4), Opaque, &[7, 4], sized(16, 8), SEALED),
            (ResultOf(4, 7), Opaque, &[4, 7], sized(2, 1), BAD_LAYOUT),
            (ResultOf(7, 4), Opaque, &[7, 4], sized(24, 8), BAD_LAYOUT),
            (ResultOf(3, 8), Opaque, &[3, 8], sized(48, 16), SEALED),
            (ResultOf(3, 8), Opaque, &[3, 8], sized(32, 16), BAD_LAYOUT),
            (ArrayOf(5, 3), Opaque, &[5], sized(6, 2), SEALED),
            (ArrayOf(5, 3), Opaque, &[5], sized(8, 2), BAD_LAYOUT),
            (ArrayOf(5, 3), Opaque, &[5], sized(6, 1), BAD_LAYOUT),
            (ArrayOf(3, 0), Opaque, &[3], sized(0, 8), SEALED),
            (ArrayOf(3, 0), Opaque, &[3], sized(0, 1), BAD_LAYOUT),
        ],
    )
}

// Lists, sets, maps and boxes have one layout each, whatever they hold.
#[test]
fn what_holds_its_parts_elsewhere_has_a_layout_of_its_own(rt: HostRuntime) -> Result<(), Fail> {
    rows_are_answered(
        &rt,
        rt.alloc(),
        &[
            (ListOf(4), Opaque, &[4], sized(24, 8), SEALED),
            (ListOf(4), Opaque, &[4], sized(16, 8), BAD_LAYOUT),
            (ListOf(4), Opaque, &[4], sized(24, 4), BAD_LAYOUT),
            (SetOf(8), Opaque, &[8], sized(24, 8), SEALED),
            (SetOf(8), Opaque, &[8], sized(32, 8), BAD_LAYOUT),
            (SetOf(8), Opaque, &[8], sized(24, 2), BAD_LAYOUT),
            (MapOf(4, 8), Opaque, &[4, 8], sized(24, 8), SEALED),
            (MapOf(4, 8), Opaque, &[4, 8], sized(48, 16), BAD_LAYOUT),
            (MapOf(4, 8), Opaque, &[4, 8], sized(24, 1), BAD_LAYOUT),
            (BoxOf(Some(8)), Opaque, &[8], sized(8, 8), SEALED),
            (BoxOf(Some(8)), Opaque, &[8], sized(16, 8), BAD_LAYOUT),
            (BoxOf(Some(8)), Opaque, &[8], sized(16, 16), BAD_LAYOUT),
            (BoxOf(Some(4)), Opaque, &[4], sized(8, 4), BAD_LAYOUT),
            (BoxOf(Some(16)), Opaque, &[16], sized(16, 8), SEALED),
            (BoxOf(Some(16)), Opaque, &[16], sized(8, 8), BAD_LAYOUT),
            (BoxOf(Some(16)), Opaque, &[16], sized(24, 8), BAD_LAYOUT),
            (BoxOf(Some(16)), Opaque, &[16], sized(16, 4), BAD_LAYOUT),
        ],
    )
}
