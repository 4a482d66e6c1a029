//! Facts about the grammar and the spelling of commands: each is the contract of a function.

ghost use Rattle.std.specs.Prelude.{◌≡◌, ℕ, true, List, Some};
ghost use Rattle.facet_grammar.specs.declared.command.Command.{Command};
ghost use Rattle.facet_grammar.specs.declared.token.Part.{Part};
ghost use Rattle.facet_grammar.specs.Grammar.{command_of, spelling, IsWritable};
ghost use Rattle.facet_grammar.specs.Forms.{AreInverse, is_form};
ghost use Rattle.facet_words.specs.Words.{is_text};

/// Reading and writing tokens of a form are inverse.
pub fn forms_are_inverse()
    ensures { (form : List Part) → is_form form ≡ true → AreInverse form }
{}

/// A line that is a command is the spelling of that command, which can be written.
pub fn commands_are_spelled()
    ensures { (line : List ℕ) (command : Command) → command_of line ≡ Some command → (spelling command ≡ line) × IsWritable command }
{}

/// The spelling of a command that can be written is that command.
pub fn spellings_are_read()
    ensures { (command : Command) → IsWritable command → command_of (spelling command) ≡ Some command }
{}

/// A line that is a command is UTF-8 and has no newline.
pub fn commands_are_texts()
    ensures { (line : List ℕ) (command : Command) → command_of line ≡ Some command → is_text line ≡ true }
{}
