//! What a refusal means, by a table of texts: the first line of each is the name of a refusal.

ghost use Rattle.std.specs.Prelude.{◌≡◌, option_map, string_bytes, IfOk};
ghost use Rattle.relay_line.specs.Explaining.{explained, first_line, name_lines};

use std::alloc::{AllocError, Global};

/// The first line of a text.
pub fn first_line(text: &str) -> &str
    ensures { result.now ≡ first_line text.now }
{
    match text.split_once('\n') {
        Some((line, _)) => line,
        None => text,
    }
}

/// What a table says of the refusal of this name, if it has one.
pub fn explanation_in(table: &[&'static str], name: &str) -> Option<&'static str>
    ensures { option_map (λ text. text.now) result ≡ explained table.now name.now }
{
    match table {
        [] => None,
        [text, ..] if first_line(text) == name => Some(*text),
        [_, rest @ ..] => explanation_in(rest, name),
    }
}

/// The names that a table has, a line each.
pub fn names_in(alloc: Global, table: &[&str]) -> Result<String, AllocError>
    ensures { IfOk result (λ listed. string_bytes listed ≡ name_lines table.now) }
{
    let mut listed = String::new(alloc);
    for text in table {
        listed.push_str(first_line(text))?;
        listed.push('\n')?;
    }
    Ok(listed)
}
