ghost use Rattle.std.specs.Prelude.{◌≡◌, ◌∷◌, true, option_map, MatchOption};
ghost use Rattle.std.specs.Option.{option_copied};
ghost use Rattle.facet_grammar.specs.Pieces.{pieces_behind, stops};
ghost use Rattle.facet_grammar.specs.Forms.{behind_keyword as keyword_behind};
ghost use Rattle.facet_grammar.specs.Tokens.{takes as taken_by};

use crate::keyword::Keyword;
use crate::token::Kind;
use facet_declaration::first_piece;

/// The first piece, if a token of a kind takes it, and what stands behind it.
pub fn next_taken<'a>(kind: Kind, behind: Option<&'a str>) -> Option<(&'a str, Option<&'a str>)>
    ensures { MatchOption result (stops (taken_by kind) (pieces_behind (option_copied behind.entry)) ≡ true) (λ first. (pieces_behind (option_copied behind.entry) ≡ first.0.now ∷ pieces_behind (option_copied first.1)) × (taken_by kind first.0.now ≡ true)) }
{
    let text = behind?;
    let (piece, after) = first_piece(text, ' ');
    if kind.takes(piece) {
        Some((piece, after))
    } else {
        None
    }
}

/// What stands behind a keyword, if the text begins with it.
pub fn behind_keyword<'a>(keyword: Keyword, behind: Option<&'a str>) -> Option<Option<&'a str>>
    ensures { option_map (λ after. pieces_behind (option_copied after)) result ≡ keyword_behind keyword (pieces_behind (option_copied behind.entry)) }
{
    let text = behind?;
    let (piece, after) = first_piece(text, ' ');
    if piece == keyword.text() {
        Some(after)
    } else {
        None
    }
}
