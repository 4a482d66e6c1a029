ghost use Rattle.std.specs.Prelude.{◌≡◌, IfOk, option_map};
ghost use Rattle.std.specs.Option.{option_copied};
ghost use Rattle.facet_grammar.specs.Forms.{read_tokens as tokens_read};
ghost use Rattle.facet_grammar.specs.Grammar.{command_of, read_row as row_read, read_rows};
ghost use Rattle.facet_grammar.specs.Pieces.{pieces_of, pieces_behind};

use crate::command::Command;
use crate::piece::behind_keyword;
use crate::row::{ROWS, Row, command_from};
use crate::token::{Part, Token};
use crate::token_reading::read_token;
use std::alloc::{AllocError, Global};
use std::collections::VecDeque;
use std::str;

/// The command that a line is, and none exactly where the line isn't in the grammar, isn't UTF-8 or has a newline.
pub fn read_command(alloc: Global, line: &[u8]) -> Result<Option<Command>, AllocError>
    ensures { IfOk result (λ found. found ≡ command_of line.now) }
{
    match str::from_utf8(line) {
        Ok(text) => read_rows(alloc, &ROWS, text),
        Err(_) => Ok(None),
    }
}

// The command that a text is, by the first row of a table that has one.
fn read_rows(alloc: Global, table: &[Row], text: &str) -> Result<Option<Command>, AllocError>
    ensures { IfOk result (λ found. found ≡ read_rows table.now (pieces_of text.now)) }
{
    for row in table {
        if let Some(command) = read_row(alloc, *row, text)? {
            return Ok(Some(command));
        }
    }
    Ok(None)
}

// The command of a row that it is.
fn read_row(alloc: Global, row: Row, text: &str) -> Result<Option<Command>, AllocError>
    ensures { IfOk result (λ found. found ≡ row_read row (pieces_of text.now)) }
{
    match read_tokens(alloc, row.form(), Some(text))? {
        Some(tokens) => Ok(Some(command_from(row, tokens))),
        None => Ok(None),
    }
}

/// The tokens of a form that all of a text is.
pub fn read_tokens(
    alloc: Global,
    form: &[Part],
    text: Option<&str>,
) -> Result<Option<VecDeque<Token>>, AllocError>
    ensures { IfOk result (λ found. option_map (λ tokens. tokens.items) found ≡ tokens_read form.now (pieces_behind (option_copied text.entry))) }
{
    let mut tokens = VecDeque::new(alloc);
    let mut rest = text;
    for part in form {
        let kind = match *part {
            Part::Token(kind) => kind,
            Part::Keyword(keyword) => match behind_keyword(keyword, rest) {
                Some(after) => {
                    rest = after;
                    continue;
                }
                None => return Ok(None),
            },
        };
        match read_token(alloc, kind, rest)? {
            Some((token, after)) => {
                tokens.push_back(token)?;
                rest = after;
            }
            None => return Ok(None),
        }
    }
    match rest {
        Some(_) => Ok(None),
        None => Ok(Some(tokens)),
    }
}
