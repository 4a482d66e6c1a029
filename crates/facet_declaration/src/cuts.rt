ghost use Rattle.std.specs.Prelude.{◌≡◌, ◌∷◌, ◌<◌, option_map};
ghost use Rattle.std.specs.Option.{option_copied};
ghost use Rattle.facet_declaration.specs.Cuts.{cut_at as is_cut_at, ended_by as is_ended_by, pieces_at, pieces_behind};

/// What stands before and behind the first byte `at`, which is ASCII.
pub fn cut_at(text: &str, at: char) -> Option<(&str, &str)>
    requires { at < 128 }
    ensures { option_map (λ parts. (parts.0.now, parts.1.now)) result ≡ is_cut_at at text.now }
{
    text.split_once(at)
}

/// What stands before the only byte `mark` of a text, which ends it.
pub fn ended_by(text: &str, mark: char) -> Option<&str>
    requires { mark < 128 }
    ensures { option_copied result ≡ is_ended_by mark text.now }
{
    match cut_at(text, mark) {
        Some((front, back)) => { if back.is_empty() { Some(front) } else { None } }
        None => None,
    }
}

/// What stands before the first byte `at` of a text, and what stands behind it, if there is one.
pub fn first_piece(text: &str, at: char) -> (&str, Option<&str>)
    requires { at < 128 }
    ensures { result.0.now ∷ pieces_behind at (option_copied result.1) ≡ pieces_at at text.now }
{
    match cut_at(text, at) {
        Some((piece, after)) => (piece, Some(after)),
        None => (text, None),
    }
}
