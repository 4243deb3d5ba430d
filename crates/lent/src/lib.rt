//! Lists in lent memory, for code that has no heap.

#![tactic(auto)]

ghost use Rattle.std.specs.Prelude.{◌≡◌, ◌+◌, ◌<◌, ◌≤◌, ◌++◌, ◌∷◌, [], length, None};
ghost use Rattle.std.specs.Option.{MatchOption};

use std::marker::Model;

/// A list in lent memory, which begins empty and grows at its end.
#[derive(Drop)]
pub struct LentList<'a, T> {
    room: &'a mut [T],
    used: usize,
}

impl<'a, T> Model for LentList<'a, T> {
    ghost use Rattle.std.specs.Prelude.{◌≤◌, length, take};
    ghost use Rattle.lent.specs.Lists.{Held};

    ghost Value = { Held T };

    ghost view = { λ l. record { items = take l.used l.room.now; room = length l.room.now } };

    ghost invariant = { λ l. l.used ≤ length l.room.now };
}

impl<'a, T: Copy> LentList<'a, T> {
    /// An empty list.
    pub fn new(room: &'a mut [T]) -> Self
        ensures empty { result.items ≡ [] }
        ensures room { result.room ≡ length room.old }
    {
        LentList { room, used: 0 }
    }

    /// How many are in it.
    pub fn len(&self) -> usize
        ensures { result ≡ length self.now.items }
    {
        self.as_slice().len()
    }

    /// Puts one more at the end.
    pub fn push(&mut self, item: T)
        requires { length self.old.items < self.old.room }
        ensures items { self.new.items ≡ self.old.items ++ item ∷ [] }
        ensures room { self.new.room ≡ self.old.room }
    {
        self.room[self.used] = item;
        self.used += 1;
    }

    /// Takes the last one off, if there is one.
    pub fn pop(&mut self) -> Option<T>
        ensures items { MatchOption result (self.old.items ≡ []) (λ item. self.old.items ≡ self.new.items ++ item ∷ []) }
        ensures none { result ≡ None → self.new.items ≡ self.old.items }
        ensures room { self.new.room ≡ self.old.room }
    {
        self.used = self.used.checked_sub(1)?;
        Some(self.room[self.used])
    }

    /// Puts more at the end.
    pub fn extend_from_slice(&mut self, items: &[T])
        requires { length self.old.items + length items.now ≤ self.old.room }
        ensures items { self.new.items ≡ self.old.items ++ items.now }
        ensures room { self.new.room ≡ self.old.room }
    {
        let end = self.used + items.len();
        self.room[self.used..end].copy_from_slice(items);
        self.used = end;
    }

    /// What is in the list.
    pub fn as_slice(&self) -> &[T]
        ensures { result.now ≡ self.now.items }
    {
        &self.room[..self.used]
    }

    /// What is in the list, and ends the list.
    pub fn into_slice(self) -> &'a [T]
        ensures items { result.now ≡ self.entry.items }
        ensures within { length result.now ≤ self.entry.room }
    {
        let LentList { room, used } = self;
        &room[..used]
    }
}
