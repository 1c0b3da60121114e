ghost use Rattle.std.specs.Prelude.{◌≡◌, [], ◌∷◌, ◌++◌, length, is_ok, if◌then◌else◌, Ok, Err, nat_le, nat_lt};
ghost use Rattle.message.specs.Groups.{list_of};

/// The groups of a message, in their order: up to sixteen.
#[derive(Clone, Copy)]
pub struct Groups<V> {
    items: [V; 16],
    count: usize,
}

impl<V: Copy> Groups<V> {
    /// No groups; `blank` fills the table.
    pub fn new(blank: V) -> Groups<V>
        ensures { list_of result ≡ [] }
    {
        Groups {
            items: [blank; 16],
            count: 0,
        }
    }

    /// The groups.
    pub fn as_slice(&self) -> &[V]
        ensures { result.now ≡ list_of self.now }
    {
        &self.items[..self.count.min(16)]
    }

    /// Whether there are sixteen groups.
    pub fn is_full(&self) -> bool
        ensures { result ≡ nat_le 16 (length (list_of self.now)) }
    {
        self.count >= 16
    }

    /// One group more, unless there are sixteen: then it comes back.
    pub fn push(&mut self, group: V) -> Result<(), V>
        ensures taken { result ≡ (if nat_lt (length (list_of self.old)) 16 then Ok tt else Err group) }
        ensures after { list_of self.new ≡ (if is_ok result then list_of self.old ++ group ∷ [] else list_of self.old) }
    {
        if self.is_full() {
            return Err(group);
        }
        self.items[self.count] = group;
        self.count += 1;
        Ok(())
    }
}
