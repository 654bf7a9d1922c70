// The ground floor: bytes that are put one behind the other. The words for lists, options, arrays and bytes that definitions use are in
// specs/, their laws in proofs/.
#![tactic(auto)]

ghost use Rattle.std.specs.Prelude.{[], ◌∷◌};
ghost use Rattle.base.specs.Bytes.{Room, Puts};

// Lent bytes, and the place where the next one is put, which stands beside them, since they are as long as they were lent.
#[derive(Drop)]
pub struct Output<'a> {
    pub bytes: &'a mut [u8],
    pub at: usize,
}

impl<'a> Output<'a> {
    // One byte more.
    pub fn put(&mut self, b: u8)
        requires { Room self.old (b ∷ []) }
        ensures { Puts self.old self.new (b ∷ []) }
    {
        self.bytes[self.at] = b;
        self.at += 1;
    }

    // Some bytes more.
    pub fn put_all(&mut self, bytes: &[u8])
        requires { Room self.old bytes.now }
        ensures { Puts self.old self.new bytes.now }
    {
        let end = self.at + bytes.len();
        self.bytes[self.at..end].copy_from_slice(bytes);
        self.at = end;
    }
}
