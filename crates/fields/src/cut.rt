ghost use Rattle.std.specs.Prelude.{◌≡◌, ℕ, ◌+◌, ◌==◌, true, List, [], ◌∷◌, length, IfSome, MatchOption, position};
ghost use Rattle.fields.specs.Pieces.{pieces, Pieced};

/// Where the first `mark` stands.
fn first_at(bytes: &[u8], mark: u8) -> Option<usize>
    ensures { result ≡ position (λ b. b == mark) bytes.now }
{
    bytes.iter().position(|b| *b == mark)
}

/// The bytes before the first `mark`, and those after it; none where there is no mark.
pub fn cut(bytes: &[u8], mark: u8) -> Option<(&[u8], &[u8])>
    ensures pieces { MatchOption result (pieces mark bytes.now ≡ bytes.now ∷ []) (λ p. pieces mark bytes.now ≡ p.0.now ∷ pieces mark p.1.now) }
    ensures long { IfSome result (λ p. length p.0.now + 1 + length p.1.now ≡ length bytes.now) }
{
    let at = first_at(bytes, mark)?;
    Some((&bytes[..at], &bytes[at + 1..]))
}

/// Cutting at a mark has one result, which joins to the bytes again.
pub fn cutting_is_exact() -> bool
    ensures answer { result ≡ true }
    ensures law { (mark : ℕ) → Pieced mark }
{
    true
}
