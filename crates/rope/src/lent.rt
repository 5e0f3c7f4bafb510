//! Memory that a caller lends, filled from its front.
ghost use Rattle.std.specs.Prelude.{◌≡◌, ◌+◌, ◌-◌, ◌<◌, ◌≤◌, min, [], ◌∷◌, length};

/// A lent slice that is filled from its front, up to `MOST` items however many are lent. What lies behind the items that
/// it holds is as it was lent.
#[derive(Drop)]
pub struct Lent<'a, T, const MOST: usize> {
    memory: &'a mut [T],
    used: usize,
    ghost within: { used ≤ length memory.now },
    ghost few: { used ≤ MOST },
}

impl<'a, T: Copy, const MOST: usize> Lent<'a, T, MOST> {
    ghost use Rattle.rope.specs.Held.{held, Gains};

    /// Nothing is held yet. Takes constant time.
    pub fn new(memory: &'a mut [T]) -> Lent<'a, T, MOST>
        ensures { (result.used ≡ 0) × (result.memory.now ≡ memory.old) }
    {
        Lent { memory, used: 0 }
    }

    /// How many items more there is room for. Takes constant time.
    pub fn room(&self) -> usize
        ensures { result ≡ min (length self.now.memory.now) MOST - self.now.used }
    {
        self.memory.len().min(MOST) - self.used
    }

    /// What is held. Takes constant time.
    pub fn as_slice(&self) -> &[T]
        ensures { result.now ≡ held self.now }
    {
        &self.memory[..self.used]
    }

    /// One item more, and how many are held then. Takes constant time.
    pub fn push(&mut self, item: T) -> usize
        requires { self.old.used < min (length self.old.memory.now) MOST }
        ensures value { result ≡ self.old.used + 1 }
        ensures gains { Gains self.old self.new (item ∷ []) }
    {
        let i = self.used;
        self.memory[i] = item;
        self.used = i + 1;
        i + 1
    }

    /// More items, in order, and the place of the first. Takes time in their number.
    pub fn extend_from_slice(&mut self, items: &[T]) -> usize
        requires { self.old.used + length items.now ≤ min (length self.old.memory.now) MOST }
        ensures value { result ≡ self.old.used }
        ensures gains { Gains self.old self.new items.now }
    {
        let from = self.used;
        let to = from + items.len();
        self.memory[from..to].copy_from_slice(items);
        self.used = to;
        from
    }
}
