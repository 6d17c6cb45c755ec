// The words that calls begin with.
ghost use Rattle.std.specs.Prelude.{◌≡◌, Option};
ghost use Rattle.hetunawa.specs.Verbs.{verb_of};

#[derive(Clone, Copy)]
pub enum Verb {
    Write,
    Remove,
    Tell,
    Clock,
    Start,
    Poll,
    BreakOff,
}

// The verb that a word is. There is nothing to tell of a word that is none, as a `TryFrom` would.
pub fn verb_in(word: &[u8]) -> Option<Verb>
    ensures { result ≡ verb_of word.now }
{
    match word {
        b"write" => Some(Verb::Write),
        b"remove" => Some(Verb::Remove),
        b"tell" => Some(Verb::Tell),
        b"clock" => Some(Verb::Clock),
        b"start" => Some(Verb::Start),
        b"poll" => Some(Verb::Poll),
        b"break" => Some(Verb::BreakOff),
        _ => None,
    }
}
