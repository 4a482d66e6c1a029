//! The debug text of a flag set.

ghost use Rattle.std.specs.Prelude.{◌++◌, codes, if◌then◌else◌};
ghost use Rattle.std.specs.Fmt.{WritesOnOk};
ghost use Rattle.facet_base.specs.Flags.{debug_text};

use bitflags::Flags;
use std::fmt;

// Writes the names of the flags that a set contains, in the order of its table.
pub(crate) fn write_names<F: Flags + Copy, W: fmt::Write>(
    set: &F,
    f: &mut fmt::Formatter<W>,
) -> fmt::Result
    requires { F.exact }
    ensures { WritesOnOk W.write_str_gives f.old result (debug_text F.table (F.set_of set.now)) f.new }
{
    let flags = F::flags();
    let mut is_empty = true;
    for flag in flags {
        if set.contains(flag.value) {
            write_name(flag.name, is_empty, f)?;
            is_empty = false;
        }
    }
    if is_empty {
        f.write_str("(empty)")
    } else {
        Ok(())
    }
}

// Writes a name, behind ` | ` unless it is the first.
fn write_name<W: fmt::Write>(name: &str, is_first: bool, f: &mut fmt::Formatter<W>) -> fmt::Result
    ensures { WritesOnOk W.write_str_gives f.old result
        (if is_first then name.now else codes " | " ++ name.now) f.new }
{
    if !is_first {
        f.write_str(" | ")?;
    }
    f.write_str(name)
}
