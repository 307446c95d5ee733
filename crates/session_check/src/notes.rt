//! The notes of a pass that are of commands.

ghost use Rattle.std.specs.Prelude.{◌≡◌, ◌↔◌, [], ◌∷◌, IfNone, IfSome, IsTrue};
ghost use Rattle.book_runs.specs.Sessions.{is_of_command};
ghost use Rattle.session_check.specs.NotedSteps.{commands_in};

use order_desk::Note;

/// Whether a note is of a command: of its entry, or of a log without room for it.
fn is_of_command(note: &Note) -> bool
    ensures { result ≡ is_of_command note.now }
{
    match note {
        Note::Event { .. } | Note::Full { .. } => true,
        Note::Played { .. } => false,
    }
}

/// The first note of a command, and the notes after it. It takes no memory.
pub(crate) fn next_command(notes: &[Note]) -> Option<(&Note, &[Note])>
    ensures none { IfNone result (commands_in notes.now ≡ []) }
    ensures some { IfSome result (λ found. commands_in notes.now ≡ found.0.now ∷ commands_in found.1.now) }
{
    let mut left = notes;
    while let Some((first, rest)) = left.split_first() {
        if is_of_command(first) {
            return Some((first, rest));
        }
        left = rest;
    }
    None
}

/// Whether none of these notes is of a command. It takes no memory.
pub(crate) fn has_no_commands(notes: &[Note]) -> bool
    ensures { IsTrue result ↔ (commands_in notes.now ≡ []) }
{
    next_command(notes).is_none()
}
