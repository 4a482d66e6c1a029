ghost use Rattle.std.specs.Prelude.{◌≡◌, unwrap_or};
ghost use Rattle.std.specs.Option.{option_copied};

use facet_base::Text;

/// The new name where there is one, else the given one.
pub fn effective_name<'a>(rename: Option<&'a Text>, name: &'a Text) -> &'a str
    ensures { result.now ≡ unwrap_or (option_copied rename.entry) name.now }
{
    rename.unwrap_or(name).as_str()
}
