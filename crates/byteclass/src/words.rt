// The words that have a meaning of their own: at a line's start, and in the block of a rule or a pool.
// The tests are over `&str`: a match of bytes on these words, which was tried, leaves the proof a case for each prefix.
ghost use Rattle.std.specs.Prelude.{◌≡◌};
ghost use Rattle.byteclass.specs.Words.{word_tests, rule_tests, word_of, rule_takes, pool_takes};

#[derive(Clone, Copy)]
pub enum Word {
    Rule,
    Pool,
    Build,
    // a statement of Ninja that is left out here
    LeftOut,
    // any other name: a variable
    Plain,
}

// The statement that a text at a line's start begins.
fn word_of(name: &str) -> Word
    ensures { result ≡ word_tests name.now }
{
    match name {
        "rule" => Word::Rule,
        "pool" => Word::Pool,
        "build" => Word::Build,
        "default" | "include" | "subninja" => Word::LeftOut,
        _ => Word::Plain,
    }
}

// The statement that a name at a line's start begins: what is no text is no word. No `From` stands here, since a name is such a word at a
// line's start alone.
#[tactic(auto, using(crate::proofs::Same::plain_word), unfolding(crate::specs::Words::word_of))]
pub fn word_at(name: &[u8]) -> Word
    ensures { result ≡ word_of name.now }
{
    std::str::from_utf8(name).map_or(Word::Plain, word_of)
}

fn rule_takes(name: &str) -> bool
    ensures { result ≡ rule_tests name.now }
{
    matches!(name, "command" | "description" | "pool" | "restat")
}

// Whether a rule's block takes a variable of this name.
#[tactic(auto, using(crate::proofs::Same::not_in_rule), unfolding(crate::specs::Words::rule_takes))]
pub fn in_rule(name: &[u8]) -> bool
    ensures { result ≡ rule_takes name.now }
{
    std::str::from_utf8(name).is_ok_and(rule_takes)
}

// Whether a pool's block takes a variable of this name.
#[tactic(auto, using(crate::proofs::Same::not_in_pool), unfolding(crate::specs::Words::pool_takes))]
pub fn in_pool(name: &[u8]) -> bool
    ensures { result ≡ pool_takes name.now }
{
    std::str::from_utf8(name).is_ok_and(|s| s == "depth")
}
