// Bytes that are read from the front.
ghost use Rattle.std.specs.Prelude.{◌≡◌, ◌+◌, ◌^◌, ◌<◌, ◌≤◌, length, take, drop, MatchOption};

/// What is left of some bytes, and the place of the first byte left.
#[derive(Clone, Copy)]
pub struct Rest<'a> {
    bytes: &'a [u8],
    place: usize,
    ghost fits: { place + length bytes.now < 2 ^ 64 },
}

impl<'a> Rest<'a> {
    /// All of the bytes, from place 0 on.
    pub fn new(bytes: &'a [u8]) -> Rest<'a>
        ensures bytes { result.bytes.now ≡ bytes.now }
        ensures place { result.place ≡ 0 }
    {
        Rest { bytes, place: 0 }
    }

    /// The bytes that are left.
    pub fn bytes(&self) -> &'a [u8]
        ensures { result.now ≡ self.now.bytes.now }
    {
        self.bytes
    }

    /// The place of the first byte left.
    pub fn place(&self) -> usize
        ensures { result ≡ self.now.place }
    {
        self.place
    }

    /// Takes so many bytes; `None`, and nothing changes, where fewer are left.
    pub fn take(&mut self, count: usize) -> Option<&'a [u8]>
        ensures { MatchOption result ((length self.old.bytes.now < count) × (self.new ≡ self.old)) (λ b. (b.now ≡ take count self.old.bytes.now) × (count ≤ length self.old.bytes.now) × (self.new.bytes.now ≡ drop count self.old.bytes.now) × (self.new.place ≡ self.old.place + count)) }
    {
        let (taken, rest) = self.bytes.split_at_checked(count)?;
        self.bytes = rest;
        self.place += count;
        Some(taken)
    }
}
