//! Notes: what goes to the standard error beside the line of a refusal.

ghost use Rattle.std.specs.Prelude.{◌≡◌, IfOk, IfSome, List, string_bytes, ℕ};
ghost use Rattle.relay_places.specs.Notes.{IsNote, note_line};

use crate::place::joined;
use std::alloc::{AllocError, Global};
use std::marker::Model;

/// What the line of a refusal can't say: a line, or several, each of which begins with `relay: `. So none of them looks
/// like the line of a refusal. Where there is no memory for a note, nothing is said.
#[derive(Drop)]
pub struct Note {
    lines: String,
}

impl Model for Note {
    ghost Value = { List ℕ };

    ghost view = { λ note. string_bytes note.lines };

    ghost invariant = { λ note. IsNote (string_bytes note.lines) };
}

// The line of a text.
fn line_of(alloc: Global, text: &str) -> Result<String, AllocError>
    ensures { IfOk result (λ line. string_bytes line ≡ note_line text.now) }
{
    format!(in alloc; "relay: {text}\n")
}

impl Note {
    /// The line `relay: TEXT`. There is none of a text that has more than one line.
    pub fn of_text(alloc: Global, text: &str) -> Option<Note>
        ensures { IfSome result (λ note. note ≡ note_line text.now) }
    {
        if text.as_bytes().contains(&b'\n') {
            return None;
        }
        match line_of(alloc, text) {
            Ok(lines) => Some(Note { lines }),
            Err(AllocError) => None,
        }
    }

    /// The line `relay: NAME: WHY`. What could end the line, or show it as another, is escaped in the name, as are quotes
    /// and backslashes.
    pub(crate) fn of(alloc: Global, name: &str, why: &str) -> Option<Note> {
        let name = name.escape_debug();
        let text = format!(in alloc; "{name}: {why}").ok()?;
        Note::of_text(alloc, text.as_str())
    }

    /// This note, and then another.
    pub(crate) fn then(self, alloc: Global, other: &Note) -> Option<Note> {
        match joined(alloc, self.lines.as_str(), other.lines.as_str()) {
            Ok(lines) => Some(Note { lines }),
            Err(AllocError) => None,
        }
    }

    /// Its lines.
    pub fn as_str(&self) -> &str
        ensures same { result.now ≡ self.now }
        ensures is_note { IsNote result.now }
    {
        self.lines.as_str()
    }
}
