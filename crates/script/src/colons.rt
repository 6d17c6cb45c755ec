// Where a line is cut in two.
ghost use Rattle.std.specs.Prelude.{◌≡◌, ℕ, ◌+◌, ◌<◌, ◌≢◌, length, slice_index, MatchOption};
ghost use Rattle.std.specs.Option.{option_map};
ghost use Rattle.script.specs.Colons.{Colon, NoColon, cut_of};

// The parts before and behind the first colon with a space behind it.
#[tactic(auto, using(crate::proofs::Cuts::cut_made, crate::proofs::Cuts::cut_none))]
pub fn cut_at_colon(line: &[u8]) -> Option<(&[u8], &[u8])>
    ensures { option_map (λ p. (p.0.now, p.1.now)) result ≡ cut_of line.now }
{
    let colon = colon_in(line)?;
    Some((&line[..colon], &line[colon + 2..]))
}

// The place of the first colon with a space behind it.
fn colon_in(line: &[u8]) -> Option<usize>
    ensures { MatchOption result (NoColon line.now (length line.now)) (λ i. Colon line.now i × NoColon line.now (i + 1)) }
{
    line.windows(2).position(|pair| matches!(pair, b": "))
}
