//! The kinds of monitors that a service can use.
ghost use Rattle.std.specs.Prelude.{◌≡◌, map};
ghost use Rattle.std.specs.String.{string_bytes};
ghost use Rattle.disk_jobs.specs.Kinds.{kind_named, kind_of_words};

/// The kind of the service's monitors.
#[derive(Clone, Copy, Debug, PartialEq, Eq)]
pub enum Kind {
    /// Baton doors, of one word each.
    Baton,
    /// Ticket doors, with tickets and bells.
    Ticket,
}

// Returns the kind with this name, or `None` if there is none.
fn kind_named(word: &[u8]) -> Option<Kind>
    ensures { result ≡ kind_named word.now }
{
    if word == b"baton".as_slice() {
        return Some(Kind::Baton);
    }
    if word == b"ticket".as_slice() {
        return Some(Kind::Ticket);
    }
    None
}

/// Returns the kind that a program's arguments name. No argument, or `baton` alone, is `Baton`; `ticket` alone is
/// `Ticket`; anything else is `None`.
pub fn kind_of(words: &[String]) -> Option<Kind>
    ensures { result ≡ kind_of_words (map string_bytes words.now) }
{
    match words {
        [] => Some(Kind::Baton),
        [word] => kind_named(word.as_bytes()),
        _ => None,
    }
}
