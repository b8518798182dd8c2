//! A buffer that keeps a bounded number of bytes.
ghost use Rattle.std.specs.Prelude.{◌≡◌, ◌≤◌, [], ◌∷◌, ◌++◌, length, take, if◌then◌else◌, nat_lt, Ok, Err};

/// A buffer has no room for one byte more.
#[derive(Clone, Copy, PartialEq, Eq, Debug)]
pub struct Full;

/// Up to `N` bytes, kept in place: nothing is allocated.
// An array of its own: the library's `ArrayVec` writes zeros over what it forgets. And ghost fields in place of a model, whose
// invariant callers do not see: whoever is handed a buffer knows that it keeps at most `N` bytes.
#[derive(Drop)]
pub struct Bytes<const N: usize> {
    items: [u8; N],
    len: usize,
    ghost long: { length items ≡ N },
    ghost within: { len ≤ N },
}

impl<const N: usize> Bytes<N> {
    // here and not at the head of the file, whose lines the struct's ghost fields rest on: this definition is over the struct
    ghost use Rattle.bounded.specs.Buffer.{held};

    /// A buffer that keeps nothing yet.
    pub fn new() -> Self
        ensures { held result ≡ [] }
    {
        Bytes {
            items: [0; N],
            len: 0,
        }
    }

    /// Keeps one byte more, or keeps what it had where it is full.
    pub fn push(&mut self, byte: u8) -> Result<(), Full>
        ensures answer { result ≡ (if nat_lt (length (held self.old)) N then Ok tt else Err (record {})) }
        ensures kept { held self.new ≡ (if nat_lt (length (held self.old)) N then held self.old ++ byte ∷ [] else held self.old) }
        ensures within { length (held self.new) ≤ N }
    {
        let len = self.len;
        if len == N {
            return Err(Full);
        }
        self.items[len] = byte;
        self.len = len + 1;
        Ok(())
    }

    /// Keeps as much of `more`, from its front, as there is room for.
    pub fn append(&mut self, more: &[u8])
        ensures { held self.new ≡ take N (held self.old ++ more.now) }
    {
        let len = self.len;
        let count = more.len().min(N - len);
        let all = &mut self.items[..];
        all[len..len + count].copy_from_slice(&more[..count]);
        self.len = len + count;
    }

    /// Forgets what it keeps.
    pub fn clear(&mut self)
        ensures { held self.new ≡ [] }
    {
        self.len = 0;
    }

    /// What it keeps, in the order in which it came.
    pub fn as_slice(&self) -> &[u8]
        ensures bytes { result.now ≡ held self.now }
        ensures within { length (held self.now) ≤ N }
    {
        let all = &self.items[..];
        &all[..self.len]
    }
}
