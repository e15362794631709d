ghost use Rattle.std.specs.Prelude.{◌≡◌, ◌≤◌, length, None, Some, IfSome};
ghost use Rattle.xs_gram.specs.Cuts.{IsRound, HasNoRound};

/// A cut of a rule's spread items: where its front begins, and where its rest ends.
#[derive(Clone, Copy, Debug, PartialEq, Eq)]
pub struct Cut {
    pub start: u32,
    pub end: u32,
}

/// The last left fence before item `c` whose partner stands at `c` or later, and that partner.
pub fn round(partners: &[Option<u32>], c: u32) -> Option<(u32, u32)>
    requires { c ≤ length partners.now }
    ensures some { IfSome result (λ fences. IsRound partners.now c fences.0 fences.1) }
    ensures none { result ≡ None → HasNoRound partners.now c }
{
    'items: for done in 0..c {
        let left = c - 1 - done;
        if let Some(right) = partners[left as usize] {
            if c <= right {
                return Some((left, right));
            }
        }
    }
    None
}
