//! What the words of a command line ask for.
ghost use Rattle.std.specs.Prelude.{◌↔◌, IsTrue};
ghost use Rattle.paql.specs.Commands.{IsCommand};
ghost use Rattle.paql.specs.Status.{IsOneWord};

/// What a command line asks for.
#[derive(Clone, Copy, Debug, PartialEq, Eq)]
pub(crate) enum Command {
    /// A session.
    Run,
    /// A check of a certificate.
    Check,
}

/// What the words of a command line ask for, if they ask for anything.
pub(crate) fn command_of(words: &[String]) -> Option<Command>
    ensures { IsCommand words.now result }
{
    if is_one_word(words, "run") {
        Some(Command::Run)
    } else if is_one_word(words, "check") {
        Some(Command::Check)
    } else {
        None
    }
}

// The words are this one.
fn is_one_word(words: &[String], wanted: &str) -> bool
    ensures { IsTrue result ↔ IsOneWord wanted.now words.now }
{
    match words {
        [word] => word.as_str() == wanted,
        _ => false,
    }
}
