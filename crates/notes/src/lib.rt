// A NOTE has a number from 1 to 255.
// Promises: a lane that is given such NOTEs alone makes such NOTEs alone.
#![tactic(auto)]

ghost use Rattle.std.specs.Prelude.{◌≡◌};
ghost use Rattle.notes.specs.Notes.{NotesKept};

// Every lane keeps to such NOTEs.
#[tactic(auto, using(crate::proofs::Kept::notes_kept))]
fn all_kept()
    ensures law { NotesKept }
{}

/// The least number of a NOTE. No lane makes one below it.
pub fn least_note() -> u8
    ensures value { result ≡ 1 }
    ensures law { NotesKept }
{
    all_kept();
    1
}
