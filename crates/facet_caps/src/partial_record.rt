ghost use Rattle.std.specs.Prelude.{◌≡◌, ◌≤◌, length, not, position};
ghost use Rattle.facet_caps.specs.PartialRecord.{unless_missing as record_unless_missing};

use facet_base::MissingField;

// The record, or the index of the first required member that was not given. There are at most 8 of them.
pub(crate) fn unless_missing<R: Copy>(given: &[bool], members: R) -> Result<R, MissingField>
    requires { length given.now ≤ 8 }
    ensures { result ≡ record_unless_missing (position not given.now) members }
{
    match first_missing(given) {
        None => Ok(members),
        Some(index) => Err(MissingField(index as u32)),
    }
}

fn first_missing(given: &[bool]) -> Option<usize>
    ensures { result ≡ position not given.now }
{
    given.iter().position(|is_given| !is_given)
}
