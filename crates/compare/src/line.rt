ghost use Rattle.std.specs.Prelude.{◌≡◌, ◌-◌, length, take, MatchOption};
ghost use Rattle.compare.specs.Lines.{Ended, NoTabBelow, FirstTab, Cut};

/// The line without the newline that may end it.
pub fn without_newline(line: &[u8]) -> &[u8]
    ensures ended { Ended line.now → result.now ≡ take (length line.now - 1) line.now }
    ensures open { (Ended line.now → ⊥) → result.now ≡ line.now }
{
    line.strip_suffix(b"\n").unwrap_or(line)
}

/// Where the first tab stands.
fn first_tab(line: &[u8]) -> Option<usize>
    ensures { MatchOption result (NoTabBelow (length line.now) line.now) (λ i. FirstTab i line.now) }
{
    line.iter().position(|b| *b == b'\t')
}

/// What stands before the first tab, and what after it.
pub fn cut_at_tab(line: &[u8]) -> Option<(&[u8], &[u8])>
    ensures { MatchOption result (NoTabBelow (length line.now) line.now) (λ p. Cut line.now p.0.now p.1.now) }
{
    let tab = first_tab(line)?;
    Some((&line[..tab], &line[tab + 1..]))
}
