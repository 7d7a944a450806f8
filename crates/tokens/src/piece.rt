// The pieces that a line falls into, before one asks whether each stands in its place.
ghost use Rattle.std.specs.Prelude.{◌≡◌, List, [], ◌∷◌, MatchOption};
ghost use Rattle.std.specs.Option.{option_map};
ghost use Rattle.tokens.specs.Tokens.{separator, word_length, parts};
ghost use Rattle.tokens.specs.Cursor.{part_of};

#[derive(Clone, Copy, PartialEq, Eq)]
pub enum Piece<'a> {
    Left,
    Right,
    Space,
    Run(&'a [u8]),
}

// A space or a bracket, or none where the byte belongs to a word.
fn separator_at<'a>(byte: u8) -> Option<Piece<'a>>
    ensures { option_map part_of result ≡ separator byte }
{
    match byte {
        b' ' => Some(Piece::Space),
        b'(' => Some(Piece::Left),
        b')' => Some(Piece::Right),
        _ => None,
    }
}

// How many bytes at the front belong to a word.
fn word_length(bytes: &[u8]) -> usize
    ensures { result ≡ word_length bytes.now }
{
    bytes
        .iter()
        .position(|byte| separator_at(*byte).is_some())
        .unwrap_or(bytes.len())
}

// The piece at the front and the bytes that follow it, or none where no bytes are left.
#[tactic(auto, using(crate::proofs::Runs::parts_word, crate::proofs::Runs::word_within), unfolding(crate::specs::Tokens::parts))]
pub fn split_piece<'a>(bytes: &'a [u8]) -> Option<(Piece<'a>, &'a [u8])>
    ensures { MatchOption result (parts bytes.now ≡ []) (λ p. parts bytes.now ≡ part_of p.0 ∷ parts p.1.now) }
{
    let (first, rest) = bytes.split_first()?;
    if let Some(separator) = separator_at(*first) {
        return Some((separator, rest));
    }
    let (run, rest) = bytes.split_at(word_length(bytes));
    Some((Piece::Run(run), rest))
}
