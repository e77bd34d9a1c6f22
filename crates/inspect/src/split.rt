// Cuts a text into its lines.
ghost use Rattle.std.specs.Prelude.{◌≡◌, ◌+◌, ◌≤◌, [], ◌∷◌, length, take, drop, MatchOption};
ghost use Rattle.inspect.specs.Split.{end_of, lines_of, MadeOf};
ghost use Rattle.std.specs.Iterator.{at_most};

/// The lines of a text, each without the line feed that ends it.
// The library's `split` gives an empty line past a last line feed, and its `split_inclusive` says nothing of all its parts.
#[derive(Drop)]
pub struct Lines<'a> {
    rest: &'a [u8],
}

impl<'a> Lines<'a> {
    #[tactic(auto, using(crate::proofs::SplitSteps::lines_of_lem))]
    pub fn new(text: &'a [u8]) -> Self
        ensures rest { result.rest.now ≡ text.now }
        ensures lines { MadeOf (lines_of result.rest.now) text.now }
    {
        Lines { rest: text }
    }
}

// The first line, and what follows its line feed.
fn cut_line(text: &[u8]) -> (&[u8], &[u8])
    ensures line { result.0.now ≡ take (end_of text.now) text.now }
    ensures rest { result.1.now ≡ drop (end_of text.now + 1) text.now }
{
    match text.iter().position(|character| *character == b'\n') {
        Some(end) => (&text[..end], &text[end + 1..]),
        None => (text, &[]),
    }
}

impl<'a> Iterator for Lines<'a> {
    type Item = &'a [u8];

    ghost next_gives = { λ s r t. MatchOption r (lines_of s.rest.now ≡ []) (λ l. lines_of s.rest.now ≡ l.now ∷ lines_of t.rest.now) };

    ghost remaining = { λ s. at_most (length s.rest.now) };

    #[tactic(auto, using(crate::proofs::SplitSteps::no_line, crate::proofs::SplitSteps::first_line))]
    fn next(&mut self) -> Option<&'a [u8]> {
        if self.rest.is_empty() {
            return None;
        }
        let (line, rest) = cut_line(self.rest);
        self.rest = rest;
        Some(line)
    }
}
