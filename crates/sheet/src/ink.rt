ghost use Rattle.std.specs.Prelude.{◌≡◌, ℕ, ◌+◌, ◌*◌, ◌^◌, ◌<◌, ◌≤◌, [], ◌∷◌, length, decimal};
ghost use Rattle.sheet.specs.Pens.{Inked};

/// A buffer, written from its front on, and how many bytes are written. What finds no room is lost, and counted all the same,
/// so the place can stand past the end. No `write!`: it answers a `Result` that no clause says is `Ok`, and a sheet cannot fail.
#[derive(Drop)]
pub(crate) struct Pen<'a> {
    pub(crate) out: &'a mut [u8],
    pub(crate) at: usize,
}

impl Pen<'_> {
    // Writes a byte. A test and an index: after `get_mut` on a slice (a `Vec` has it) a proof knows no element.
    #[tactic(auto, unfolding(crate::specs::Ink::inked))]
    fn byte(&mut self, b: u8)
        requires { self.old.at < 2 ^ 32 }
        ensures { Inked self.old self.new (b ∷ []) }
    {
        let at = self.at;
        self.at += 1;
        if at < self.out.len() {
            self.out[at] = b;
        }
    }

    /// Writes bytes.
    pub(crate) fn bytes(&mut self, bytes: &[u8])
        requires { self.old.at + length bytes.now < 2 ^ 32 }
        ensures { Inked self.old self.new bytes.now }
    {
        for b in bytes {
            self.byte(*b);
        }
    }

    /// Writes a number.
    pub(crate) fn number(&mut self, n: u64)
        requires { self.old.at + 21 < 2 ^ 32 }
        ensures wrote { Inked self.old self.new (decimal n) }
        ensures bound { self.new.at ≤ self.old.at + 20 }
    {
        if n < 10 {
            self.byte(48 + n as u8);
        } else {
            self.number(n / 10);
            self.byte(48 + (n % 10) as u8);
        }
    }
}
