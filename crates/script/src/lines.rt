// The lines of a text. A line ends at a newline; the last may lack it.
ghost use Rattle.std.specs.Prelude.{◌≡◌, suc, take, drop, position, ◌==◌};
ghost use Rattle.std.specs.Iterator.{YieldsFirstRef, item_count};
ghost use Rattle.script.specs.Lines.{before, lines};

// Where the first newline stands, if there is one.
fn newline(text: &[u8]) -> Option<usize>
    ensures { result ≡ position (λ b. b == 10) text.now }
{
    text.iter().position(|b| *b == b'\n')
}

/// The first line, and what follows its newline.
#[tactic(auto, using(std::proofs::lemmas::Grind::common_steps, crate::proofs::Cuts::before_is, crate::proofs::Cuts::tail_is))]
pub fn cut<'a>(text: &'a [u8]) -> (&'a [u8], &'a [u8])
    ensures line { result.0.now ≡ take (before text.now) text.now }
    ensures rest { result.1.now ≡ drop (suc (before text.now)) text.now }
{
    match newline(text) {
        Some(n) => (&text[..n], &text[n + 1..]),
        None => (text, &[]),
    }
}

// The lines of a text, one after the other.
#[derive(Drop)]
pub(crate) struct Lines<'a>(pub(crate) &'a [u8]);

impl<'a> Iterator for Lines<'a> {
    type Item = &'a [u8];

    ghost next_gives = { YieldsFirstRef (λ s. lines s.0.now) };

    ghost remaining = { item_count (λ s. lines s.0.now) };

    #[tactic(auto, using(std::proofs::lemmas::Grind::common_steps, crate::proofs::Cuts::lines_cut))]
    fn next(&mut self) -> Option<&'a [u8]> {
        if self.0.is_empty() {
            return None;
        }
        let (line, rest) = cut(self.0);
        self.0 = rest;
        Some(line)
    }
}
